//! What a stop leaves while a mount drops transactions. The functions do nothing.
ghost use Rattle.std.specs.Prelude.{◌≡◌, ◌++◌, ℕ, ◌<◌, Bool, List, map};
ghost use Rattle.std.specs.Option.{IfSome};
ghost use Rattle.fx_disk.specs.Record.{DiskRecord, cell_after};
ghost use Rattle.fx_disk.specs.Steps.{IsRecordOf};
ghost use Rattle.fx_disk.specs.Seen.{DiskSeen, HasWritten, HasFlushed};
ghost use Rattle.fx_plain.specs.Tree.{Tree};
ghost use Rattle.fx_uses.specs.Live.{txn_of, AreNumbered};
ghost use Rattle.fx_uses.specs.Uses.{last};
ghost use Rattle.fx_cuts.specs.Joined.{JoinedState, NumberedItems};
ghost use Rattle.fx_cuts.specs.Images.{Mark};
ghost use Rattle.fx_cuts.specs.KeepsJoined.{KeepsState, HoldsTrees, DropsBeyond, ShowsFound};
ghost use Rattle.fx_cuts.specs.KeepsJoined.{KeepsJoined, KeepsMounting};

use crate::cuts::ImageReader;

/// A mount that keeps some of the transactions that it found drops those beyond them. Until that is flushed
/// an image left may show them all, and it keeps the same number: past superblocks and ring nothing is
/// loose. So each image left at each moment of the mount keeps what the mount keeps, over each write of a
/// superblock or of the ring, and over each flush, good or failed, made or not. What holds then holds at the
/// end of the mount, and the state goes on from there.
pub fn while_dropping<W: ImageReader>()
    ensures begin { (trees : ℕ → Tree) (kept : ℕ) (s : JoinedState) (beyond : NumberedItems)
        (marks bases : List Mark) (seen : DiskSeen) →
        IfSome seen.told (IsRecordOf seen.size seen.calls) →
        KeepsState W.means s kept seen.calls seen.calls marks bases →
        s.blocks.settled ≡ last s.blocks → s.based ≡ s.blocks.base →
        AreNumbered s.blocks.base (map txn_of (s.txns ++ beyond)) → IfSome seen.told (λ r.
        HoldsTrees W.means trees s r × ((b : ℕ) → cell_after r seen.calls b ≡ W.means.before b) ×
        ((entry : List (List ℕ)) × DropsBeyond W.means s beyond entry r) × ShowsFound W.means s
        beyond r) → KeepsMounting W.means trees kept seen.calls s beyond marks bases seen }
    ensures write { (trees : ℕ → Tree) (kept from : ℕ) (s : JoinedState) (beyond : NumberedItems)
        (marks bases : List Mark) (before after : DiskSeen) (ok : Bool) →
        IfSome before.told (IsRecordOf before.size before.calls) →
        KeepsMounting W.means trees kept from s beyond marks bases before → (at : ℕ)
        (put : List ℕ) → at < W.means.first_data → HasWritten before after at put ok →
        IfSome after.told (ShowsFound W.means s beyond) →
        KeepsMounting W.means trees kept from s beyond marks bases after }
    ensures flush { (trees : ℕ → Tree) (kept from : ℕ) (s : JoinedState) (beyond : NumberedItems)
        (marks bases : List Mark) (before after : DiskSeen) (ok : Bool) →
        IfSome before.told (IsRecordOf before.size before.calls) →
        KeepsMounting W.means trees kept from s beyond marks bases before →
        HasFlushed before after ok → IfSome after.told (ShowsFound W.means s beyond) →
        KeepsMounting W.means trees kept from s beyond marks bases after }
    ensures ends { (trees : ℕ → Tree) (kept from : ℕ) (s : JoinedState) (beyond : NumberedItems)
        (marks bases : List Mark) (seen : DiskSeen) →
        KeepsMounting W.means trees kept from s beyond marks bases seen →
        KeepsJoined W.means trees kept from s marks bases seen }
{}
