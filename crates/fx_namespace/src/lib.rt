//! The tree that items make: which node a path leads to, and what the tree has there.
//!
//! Definitions and their laws, for those who prove: the functions do nothing.
#![tactic(auto)]

ghost use Rattle.std.specs.Prelude.{◌≡◌, ◌++◌, ◌∷◌, ◌+◌, ◌<◌, ◌≤◌, ◌^◌, [], ℕ, All, IsTrue, List, Option, None, Some};
ghost use Rattle.std.specs.FinMap as map;
ghost use Rattle.fx_item.specs.Item.{ChildKey, FileValue, IsNameItem, ObjectKey, PlainItem, PlainKey, PlainValue};
ghost use Rattle.fx_item.specs.Name.{is_name};
ghost use Rattle.fx_item.specs.Order.{is_ascending};
ghost use Rattle.fx_plain.specs.Node.{Attributes, Node};
ghost use Rattle.fx_plain.specs.Node as plain;
ghost use Rattle.fx_plain.specs.Tree.{Tree, IsTree, root};
ghost use Rattle.fx_plain.specs.declared.kind.Kind.{Kind};
ghost use Rattle.fx_item.specs.Look.{ItemMap, after, after_all, next_id, next_id_after, next_store, next_store_after};
ghost use Rattle.fx_namespace.specs.Nodes.{NodeId, Stands, kind_of, node_at, root_node, told_kind};
ghost use Rattle.fx_namespace.specs.Trees.{Holdings, IsTreeOf, node_of};
ghost use Rattle.fx_namespace.specs.Changes.{GainsNode, IsPlaceFor, Resizes, SameBut};
ghost use Rattle.fx_namespace.specs.Commits.{IsBelow, IsFileAt, IsFreePlace, IsNextNode, LeadsAlso, id_then, new_items, store_then, written_items};

/// Items make one tree of paths, and where they stand it is a tree: whatever a path goes through is
/// a directory. Then one path at most leads to a node.
pub fn tree_laws()
    ensures one { (m : ItemMap) (h : Holdings) (t u : Tree)
        → IsTreeOf m h t → IsTreeOf m h u → t ≡ u }
    ensures is_tree { (m : ItemMap) (h : Holdings) (t : Tree)
        → Stands m → IsTreeOf m h t → IsTree t }
    ensures path { (m : ItemMap) (a b : List (List ℕ)) (node : NodeId) → Stands m
        → node_at m a ≡ Some node → node_at m b ≡ Some node → a ≡ b }
{}

/// No items at all stand, and make the root alone.
pub fn empty_laws()
    ensures stands { Stands (λ key. None) }
    ensures tree { (h : Holdings) → IsTreeOf (λ key. None) h root }
{}

/// Where a fresh node gains its Object and an entry in a directory, the items stand again, the path
/// leads to it, and the tree is the old one with the node at that path.
pub fn gain_laws()
    ensures stands { (m n : ItemMap) (above : List (List ℕ)) (parent : NodeId) (name : List ℕ)
        (node : NodeId) (kind : Kind) (value : PlainValue)
        → Stands m → IsPlaceFor m above parent name node kind → GainsNode m n parent name node value
        → told_kind (Some value) ≡ Some kind → Stands n }
    ensures way { (m n : ItemMap) (above : List (List ℕ)) (parent : NodeId) (name : List ℕ)
        (node : NodeId) (kind : Kind) (value : PlainValue)
        → Stands m → IsPlaceFor m above parent name node kind → GainsNode m n parent name node value
        → node_at n (above ++ name ∷ []) ≡ Some node }
    ensures tree { (m n : ItemMap) (above : List (List ℕ)) (parent : NodeId) (name : List ℕ)
        (node : NodeId) (kind : Kind) (value : PlainValue)
        → Stands m → IsPlaceFor m above parent name node kind → GainsNode m n parent name node value
        → told_kind (Some value) ≡ Some kind
        → (h : Holdings) (t : Tree) → IsTreeOf m h t
        → IsTreeOf n h (map.insert t (above ++ name ∷ []) (node_of h node kind)) }
{}

/// Where a file's Object tells another length, the items stand again and make the same tree. Where
/// the file then holds other contents, the tree is the old one with these at the file's path.
pub fn resize_laws()
    ensures stands { (m n : ItemMap) (node : NodeId) (old new : ℕ) → Stands m
        → Resizes m n node old new → Stands n }
    ensures tree { (m n : ItemMap) (node : NodeId) (old new : ℕ) (h : Holdings) (t : Tree)
        → Resizes m n node old new → IsTreeOf m h t → IsTreeOf n h t }
    ensures contents { (m n : ItemMap) (node : NodeId) (old new : ℕ) (g h : Holdings) (t : Tree)
        (path : List (List ℕ))
        → Stands m → Resizes m n node old new → SameBut node g h → node_at m path ≡ Some node
        → IsTreeOf m g t
        → IsTreeOf n h (map.insert t path (node_of h node Kind.File)) }
{}

/// What a tree of items tells of them: where something lies, the path leads to a node; where a
/// directory lies, the node is one; where a file lies, the node has a file's Object; where nothing
/// lies below a node, its name is free. Only the empty path leads to the root.
pub fn told_laws()
    ensures there { (m : ItemMap) (h : Holdings) (t : Tree) (path : List (List ℕ)) (x : Node)
        → IsTreeOf m h t → map.get t path ≡ Some x
        → (node : NodeId) × (node_at m path ≡ Some node) }
    ensures nothing { (m : ItemMap) (h : Holdings) (t : Tree) (path : List (List ℕ))
        → IsTreeOf m h t → node_at m path ≡ None → map.get t path ≡ None }
    ensures directory { (m : ItemMap) (h : Holdings) (t : Tree) (path : List (List ℕ))
        (node : NodeId) (attributes : Attributes)
        → IsTreeOf m h t → map.get t path ≡ Some (plain.Dir attributes) → node_at m path ≡ Some node
        → kind_of m node ≡ Some Kind.Dir }
    ensures file { (m : ItemMap) (h : Holdings) (t : Tree) (path : List (List ℕ)) (node : NodeId)
        → IsTreeOf m h t → IsFileAt m t path node
        → (len : ℕ) × (m (ObjectKey node.store node.id) ≡ Some (FileValue len)) }
    ensures free { (m : ItemMap) (h : Holdings) (t : Tree) (above : List (List ℕ)) (name : List ℕ)
        (parent : NodeId)
        → Stands m → IsTreeOf m h t → node_at m above ≡ Some parent
        → map.get t (above ++ name ∷ []) ≡ None → m (ChildKey parent.store parent.id name) ≡ None }
    ensures root { (m : ItemMap) (path : List (List ℕ)) (node : NodeId) → Stands m
        → node_at m path ≡ Some node → node ≡ root_node → path ≡ [] }
{}

/// The two items of a new node, with the next number, in a directory where nothing lies under its
/// name: after them the items stand, the tree has the node there, and one path more leads to a
/// node.
pub fn new_node_laws()
    ensures stands { (m : ItemMap) (h : Holdings) (t : Tree) (above : List (List ℕ))
        (parent : NodeId) (name : List ℕ) (node : NodeId) (kind : Kind) (id store : ℕ)
        → Stands m → IsTreeOf m h t → IsBelow m id store → IsFreePlace m t above parent name
        → IsNextNode parent node kind id store
        → Stands (after m (new_items parent name node kind)) }
    ensures tree { (m : ItemMap) (h : Holdings) (t : Tree) (above : List (List ℕ)) (parent : NodeId)
        (name : List ℕ) (node : NodeId) (kind : Kind) (id store : ℕ)
        → Stands m → IsTreeOf m h t → IsBelow m id store → IsFreePlace m t above parent name
        → IsNextNode parent node kind id store
        → IsTreeOf (after m (new_items parent name node kind)) h
        (map.insert t (above ++ name ∷ []) (node_of h node kind)) }
    ensures ways { (m : ItemMap) (h : Holdings) (t : Tree) (above : List (List ℕ)) (parent : NodeId)
        (name : List ℕ) (node : NodeId) (kind : Kind) (id store : ℕ)
        → Stands m → IsTreeOf m h t → IsBelow m id store → IsFreePlace m t above parent name
        → IsNextNode parent node kind id store
        → LeadsAlso m (after m (new_items parent name node kind)) (above ++ name ∷ []) node }
    ensures place { (m : ItemMap) (h : Holdings) (t : Tree) (above : List (List ℕ))
        (parent : NodeId) (name : List ℕ) (node : NodeId) (kind : Kind) (id store : ℕ)
        → Stands m → IsTreeOf m h t → IsBelow m id store → IsFreePlace m t above parent name
        → IsNextNode parent node kind id store
        → IsPlaceFor m above parent name node kind }
    ensures ascending { (parent : NodeId) (name : List ℕ) (node : NodeId) (kind : Kind)
        (id store : ℕ)
        → parent.id < id → parent.store < store → IsNextNode parent node kind id store
        → IsTrue (is_ascending (new_items parent name node kind)) }
    ensures items { (parent : NodeId) (name : List ℕ) (node : NodeId) (kind : Kind)
        → parent.id < 2 ^ 64 → parent.store < 2 ^ 32 → node.id < 2 ^ 64 → node.store < 2 ^ 32
        → IsTrue (is_name name) → All IsNameItem (new_items parent name node kind) }
{}

/// The item of a write, where a file lies: after it the items stand and make the same tree, and
/// each path leads where it led before.
pub fn written_laws()
    ensures stands { (m : ItemMap) (h : Holdings) (t : Tree) (path : List (List ℕ)) (node : NodeId)
        → Stands m → IsTreeOf m h t → IsFileAt m t path node
        → Stands (after m (written_items node)) }
    ensures tree { (m : ItemMap) (h : Holdings) (t : Tree) (path : List (List ℕ)) (node : NodeId)
        → IsTreeOf m h t → IsFileAt m t path node → IsTreeOf (after m (written_items node)) h t }
    ensures ways { (m : ItemMap) (h : Holdings) (t : Tree) (path : List (List ℕ)) (node : NodeId)
        → IsTreeOf m h t → IsFileAt m t path node
        → (other : List (List ℕ)) → node_at (after m (written_items node)) other ≡ node_at m other }
    ensures ascending { (node : NodeId) → IsTrue (is_ascending (written_items node)) }
    ensures items { (node : NodeId) → node.id < 2 ^ 64 → node.store < 2 ^ 32
        → All IsNameItem (written_items node) }
{}

/// The numbers that items use: below the next ones, which never fall, and which rise by one for a
/// new node.
pub fn number_laws()
    ensures node { (m : ItemMap) (id store : ℕ) (path : List (List ℕ)) (node : NodeId)
        → IsBelow m id store → node_at m path ≡ Some node → (node.id < id) × (node.store < store) }
    ensures more { (m : ItemMap) (id store higher_id higher_store : ℕ) → id ≤ higher_id
        → store ≤ higher_store → IsBelow m id store → IsBelow m higher_id higher_store }
    ensures after { (m : ItemMap) (id store : ℕ) (items : List PlainItem) → IsBelow m id store
        → IsBelow (after m items) (next_id id items) (next_store store items) }
    ensures all { (id store : ℕ) (lists : List (List PlainItem)) → 1 ≤ id → 1 ≤ store
        → IsBelow (after_all lists) (next_id_after id lists) (next_store_after store lists) }
    ensures more_id { (id : ℕ) (lists : List (List PlainItem)) (items : List PlainItem)
        → next_id_after id (lists ++ items ∷ []) ≡ next_id (next_id_after id lists) items }
    ensures more_store { (store : ℕ) (lists : List (List PlainItem)) (items : List PlainItem)
        → next_store_after store (lists ++ items ∷ [])
        ≡ next_store (next_store_after store lists) items }
    ensures front_id { (id : ℕ) (lists more : List (List PlainItem))
        → next_id_after id lists ≤ next_id_after id (lists ++ more) }
    ensures front_store { (store : ℕ) (lists more : List (List PlainItem))
        → next_store_after store lists ≤ next_store_after store (lists ++ more) }
    ensures least_id { (id : ℕ) (items : List PlainItem) → id ≤ next_id id items }
    ensures least_store { (store : ℕ) (items : List PlainItem) → store ≤ next_store store items }
    ensures new_node { (parent : NodeId) (name : List ℕ) (node : NodeId) (kind : Kind)
        (id store : ℕ) → parent.id < id → parent.store < store
        → IsNextNode parent node kind id store
        → (next_id id (new_items parent name node kind) ≡ id_then parent id)
        × (next_store store (new_items parent name node kind) ≡ store_then parent store) }
    ensures written { (node : NodeId) (id store : ℕ) → node.id < id → node.store < store
        → (next_id id (written_items node) ≡ id) × (next_store store (written_items node) ≡ store) }
{}
