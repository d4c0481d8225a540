//! Laws for callers. The functions do nothing.
ghost use Rattle.std.specs.Prelude.{◌≡◌, ◌++◌, ◌∷◌, [], ℕ, List, Some, Contains};
ghost use Rattle.fx_item.specs.Item.{PlainItem, PlainKey, PlainValue};
ghost use Rattle.fx_item.specs.Look.{ItemMap, after, after_all, next_id, next_id_after, next_store, next_store_after, value_in};
ghost use Rattle.fx_namespace.specs.Nodes.{NodeId, Stands};
ghost use Rattle.fx_namespace.specs.Wrong.{AreLiveItems, IsWrongAt};
ghost use Rattle.fx_nodes.specs.Table.{AreKept, MovesOn};

/// Where nothing is wrong at any node, items make a tree, if a list has each key under which one
/// stands; and where they make a tree, nothing is wrong.
pub fn wrong_laws()
    ensures stands { (m : ItemMap) (keys : List PlainKey)
        → ((key : PlainKey) (value : PlainValue) → m key ≡ Some value → Contains keys key)
        → AreLiveItems m → ((node : NodeId) → IsWrongAt m node → ⊥) → Stands m }
    ensures right { (m : ItemMap) (node : NodeId) → Stands m → IsWrongAt m node → ⊥ }
{}

/// What a table holds are items. Where it held what lists leave, one more `put` makes it what these
/// lists and the new one leave; and its numbers are those after all lists.
pub fn table_laws()
    ensures items { (items : List PlainItem) → AreKept items → AreLiveItems (value_in items) }
    ensures put { (old now items : List PlainItem) (lists : List (List PlainItem))
        → ((key : PlainKey) → value_in old key ≡ after_all lists key)
        → ((key : PlainKey) → value_in now key ≡ after (value_in old) items key) → (key : PlainKey)
        → value_in now key ≡ after_all (lists ++ items ∷ []) key }
    ensures next_id { (end start old now : ℕ) (items : List PlainItem)
        (lists : List (List PlainItem)) → MovesOn end start old (λ n. next_id_after n lists)
        → MovesOn end old now (λ n. next_id n items)
        → MovesOn end start now (λ n. next_id_after n (lists ++ items ∷ [])) }
    ensures next_store { (end start old now : ℕ) (items : List PlainItem)
        (lists : List (List PlainItem)) → MovesOn end start old (λ n. next_store_after n lists)
        → MovesOn end old now (λ n. next_store n items)
        → MovesOn end start now (λ n. next_store_after n (lists ++ items ∷ [])) }
{}
