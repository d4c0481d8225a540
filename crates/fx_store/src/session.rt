//! A session: the tree of a mounted disk in memory, and the commits that led to it.
ghost use Rattle.std.specs.Prelude.{◌≡◌, List, ℕ, ◌+◌, ◌<◌, ◌≤◌, ◌^◌, [], ◌∷◌, ◌++◌, length, take, drop, map, vec_capacity, vec_len, true, false, None, IfOk, OnOk, OnErr};
ghost use Rattle.fx_item.specs.Item.{items_of};
ghost use Rattle.fx_item.specs.Look.{ItemMap};
ghost use Rattle.fx_plain.specs.Table.{do_step, is_reading, refused};
ghost use Rattle.fx_plain.specs.Tree.{IsCountable};
ghost use Rattle.fx_script.specs.Print.{IsPath, StepKeepsRules};
ghost use Rattle.fx_history.specs.History.{SettledFirst, settle};
ghost use Rattle.fx_store.specs.Line.{EndsAs, change_entry, settled_entry};
ghost use Rattle.fx_store.specs.Session.{BeginsWith, HasNoted, HasEntryRoom, IsPlan, IsReadyCommit, IsSession, new_step};

use crate::commit::{Change, Commit, Numbers, Plan, new_node, record_of, same_file};
use crate::nodes::NodeMap;
use crate::opening::Contents;
use fx_history::{EndKind, Entry, History, Outcome};
use fx_plain::{Kind, Path, Plain, Refusal, Step};
use fx_record::Txns;
use std::alloc::{AllocError, Global};

/// The tree, the node of each path, and the commits.
#[derive(Drop)]
pub(crate) struct Session {
    base: u64,
    txns: Txns,
    tree: Plain,
    nodes: NodeMap,
    history: Vec<Entry>,
    /// How many of the commits are settled.
    settled: usize,
    next: Numbers,
}

/// Notes of each of the entries that it is settled after so many calls of the disk.
fn settle_each(entries: &mut [Entry], calls: u64)
    ensures { entries.new ≡ map (λ entry. settled_entry calls entry) entries.old }
{
    for entry in entries.iter_mut() {
        entry.settled = calls;
    }
}

/// The same of the entries from this place on.
fn settle_from(entries: &mut [Entry], from: usize, calls: u64)
    requires { from ≤ length entries.old }
    ensures { entries.new ≡
        take from entries.old ++ map (λ entry. settled_entry calls entry) (drop from entries.old) }
{
    let (_, rest) = entries.split_at_mut(from);
    settle_each(rest, calls);
}

impl Session {
    /// The session of what was read of a journal.
    pub(crate) fn of(alloc: Global, contents: Contents) -> Session
        ensures { BeginsWith contents result }
    {
        Session {
            base: contents.base,
            txns: contents.txns,
            tree: contents.tree,
            nodes: contents.nodes,
            history: Vec::new(alloc),
            settled: 0,
            next: Numbers {
                id: contents.next_id,
                store: contents.next_store,
            },
        }
    }

    /// The number of the last commit.
    pub(crate) fn number(&self) -> u64
        requires { self.now.base + vec_len self.now.history < 2 ^ 64 }
        ensures { result ≡ self.now.base + length self.now.history.items }
    {
        self.base + self.history.len() as u64
    }

    /// Does a line whose one step looks at the tree.
    pub(crate) fn look(&mut self, alloc: Global, step: &Step) -> Outcome
        requires few { self.old.base + vec_len self.old.history < 2 ^ 64 }
        requires nodes { IsCountable self.old.tree }
        requires reading { is_reading step.now ≡ true }
        ensures same { self.new ≡ self.old }
        ensures at { result.at ≡ self.old.base + length self.old.history.items }
        ensures ends { EndsAs (do_step self.old.tree step.now).0 result.kind }
    {
        let at = self.number();
        match self.tree.step(alloc, step) {
            Err(_) => Outcome::new(at, EndKind::OutOfMemory),
            Ok(Err(refusal)) => Outcome::new(at, EndKind::Refused(1, refusal)),
            Ok(Ok(answer)) => Outcome::new(at, EndKind::Seen(answer)),
        }
    }

    /// What refuses the step on the tree.
    pub(crate) fn refusal(&self, step: &Step) -> Option<Refusal>
        ensures { result ≡ refused (do_step self.now.tree step.now).0 }
    {
        self.tree.refusal(step)
    }

    /// The commit of a line whose one step changes the tree and is not refused. Takes the memory
    /// that the history wants for its entry, and notes the new node, if there is one, under its
    /// path, which leads nowhere until the step is done.
    pub(crate) fn prepare(&mut self, alloc: Global, step: &Step) -> Result<Commit, AllocError>
        requires few { self.old.base + vec_len self.old.history + 1 < 2 ^ 64 }
        requires rules { StepKeepsRules step.now }
        requires changing { is_reading step.now ≡ false }
        requires done { refused (do_step self.old.tree step.now).0 ≡ None }
        requires session { (items : ItemMap) × IsSession items self.old }
        ensures noted { HasNoted self.old self.new }
        ensures room { IfOk result (λ commit. HasEntryRoom self.new commit.room) }
        ensures number { IfOk result (λ commit. commit.number ≡
            self.old.base + length self.old.history.items + 1) }
        ensures ready { (items : ItemMap) → IsSession items self.old →
            IfOk result (IsReadyCommit items self.new.nodes self.new.next step.now) }
    {
        let number = self.number() + 1;
        let room = Vec::with_capacity(alloc, 1)?;
        self.history.reserve(1)?;
        let plan = self.plan(alloc, step)?;
        let record = record_of(alloc, number, plan.items)?;
        Ok(Commit {
            number,
            room,
            record,
            next: plan.next,
        })
    }

    /// The items of a step that changes the tree and is not refused.
    fn plan(&mut self, alloc: Global, step: &Step) -> Result<Plan, AllocError>
        requires rules { StepKeepsRules step.now }
        requires changing { is_reading step.now ≡ false }
        requires done { refused (do_step self.old.tree step.now).0 ≡ None }
        requires session { (items : ItemMap) × IsSession items self.old }
        ensures same { self.new ≡ record self.old { nodes = self.new.nodes } }
        ensures session { (items : ItemMap) → IsSession items self.old → IsSession items self.new }
        ensures plan { (items : ItemMap) → IsSession items self.old → IfOk result (λ plan.
            IsPlan items self.new.nodes self.new.next step.now (items_of plan.items) plan.next) }
    {
        match step {
            Step::Mkdir { path } => self.plan_node(alloc, path, Kind::Dir),
            Step::Create { path } => self.plan_node(alloc, path, Kind::File),
            Step::Write { path, .. } => self.plan_write(alloc, path),
            _ => unreachable!(),
        }
    }

    /// The items of a file that is written.
    fn plan_write(&self, alloc: Global, path: &Path) -> Result<Plan, AllocError>
        requires written { (items : ItemMap) × (at : ℕ) × (text : List ℕ) × IsSession items self.now
            × (refused (do_step self.now.tree (Step.Write path.now at text)).0 ≡ None) }
        ensures plan { (items : ItemMap) (at : ℕ) (text : List ℕ) → IsSession items self.now →
            refused (do_step self.now.tree (Step.Write path.now at text)).0 ≡ None →
            IfOk result (λ plan. IsPlan items self.now.nodes self.now.next
            (Step.Write path.now at text) (items_of plan.items) plan.next) }
    {
        let Some(node) = self.nodes.get(path.as_slice()) else {
            unreachable!();
        };
        let items = same_file(alloc, node)?;
        Ok(Plan {
            items,
            next: self.next,
        })
    }

    /// The items of a new node, which is noted under its path.
    fn plan_node(&mut self, alloc: Global, path: &Path, kind: Kind) -> Result<Plan, AllocError>
        requires path { IsPath path.now }
        requires done { refused (do_step self.old.tree (new_step kind path.now)).0 ≡ None }
        requires session { (items : ItemMap) × IsSession items self.old }
        ensures same { self.new ≡ record self.old { nodes = self.new.nodes } }
        ensures session { (items : ItemMap) → IsSession items self.old → IsSession items self.new }
        ensures plan { (items : ItemMap) → IsSession items self.old → IfOk result (λ plan.
            IsPlan items self.new.nodes self.new.next
            (new_step kind path.now) (items_of plan.items) plan.next) }
    {
        let Some((name, above)) = path.as_slice().split_last() else {
            unreachable!();
        };
        let Some(parent) = self.nodes.get(above) else {
            unreachable!();
        };
        let node = self.next.child_of(parent);
        self.nodes.put(alloc, path.as_slice(), node)?;
        let items = new_node(alloc, parent, name, node, kind)?;
        Ok(Plan {
            items,
            next: self.next.after_child_of(parent),
        })
    }

    /// Does the step of a commit that is ready, and puts its entry into the history.
    pub(crate) fn commit(
        &mut self,
        alloc: Global,
        change: Change,
        number: u64,
        room: Vec<Step>,
        next: Numbers,
    ) -> Result<(), AllocError>
        requires nodes { IsCountable self.old.tree }
        requires done { refused (do_step self.old.tree change.step).0 ≡ None }
        requires room { HasEntryRoom self.old room }
        ensures refused { OnErr result (self.new ≡ self.old) }
        ensures done { OnOk result (self.new ≡ record self.old {
          tree = (do_step self.old.tree change.step).1;
          history = self.new.history;
          next = next;
        }) }
        ensures history { OnOk result (self.new.history.items
            ≡ self.old.history.items ++ change_entry number change ∷ []) }
    {
        let Ok(_) = self.tree.step(alloc, &change.step)? else {
            unreachable!();
        };
        self.history.push_reserved(change.entry(number, room));
        self.next = next;
        Ok(())
    }

    /// Notes that every commit is settled after so many calls of the disk.
    pub(crate) fn settle(&mut self, calls: u64)
        requires few { self.old.settled ≤ vec_len self.old.history }
        requires first { SettledFirst self.old.settled self.old.history.items }
        ensures same { self.new ≡ record self.old {
          settled = length self.old.history.items;
          history = self.new.history;
        } }
        ensures history { self.new.history.items ≡ settle calls self.old.history.items }
    {
        settle_from(self.history.as_mut_slice(), self.settled, calls);
        self.settled = self.history.len();
    }

    /// The number of the last commit at the beginning.
    pub(crate) fn base(&self) -> u64
        ensures { result ≡ self.now.base }
    {
        self.base
    }

    /// The commits.
    pub(crate) fn into_history(self) -> History
        ensures { result ≡ self.history.items }
    {
        History::new(self.history)
    }
}
