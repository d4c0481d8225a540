//! What holds of images that are mounted, for those who prove: the functions do nothing.
ghost use Rattle.std.specs.Prelude.{ℕ, List, []};
ghost use Rattle.fx_disk.specs.Record.{DiskRecord, LeftNow};
ghost use Rattle.fx_disk.specs.Settled.{IsSettled};
ghost use Rattle.fx_disk.specs.Steps.{IsRecordOf};
ghost use Rattle.fx_plain.specs.Tree.{Tree, root};
ghost use Rattle.fx_history.specs.declared.entry.Entry.{Entry};
ghost use Rattle.fx_super.specs.Super.{Fields, first_fields};
ghost use Rattle.fx_image.specs.Prefix.{IsPrefix};
ghost use Rattle.fx_image.specs.Standing.{HasAmpleRoom, IsImage, Transactions};
ghost use Rattle.fx_mount.specs.Formatted.{IsFormatted};
ghost use Rattle.fx_mount.specs.Found.{IsMountable, IsRefused};
ghost use Rattle.fx_mount.specs.declared.fault.MountFault.{MountFault};

/// An image that a session can go on from is refused for nothing. So what a stop leaves of a disk
/// whose numbers left ample room is mounted again.
pub fn image_laws()
    ensures taken { (size : ℕ) (image : List (List ℕ)) (f : Fields) (txns : Transactions)
        (tree : Tree) (fault : MountFault) →
        IsMountable size image f txns tree → IsRefused size image fault → ⊥ }
    ensures again { (size : ℕ) (f : Fields) (txns : Transactions) (tree : Tree) (base : ℕ)
        (history : List Entry) (m : ℕ) (image : List (List ℕ)) (fault : MountFault) →
        HasAmpleRoom f txns → IsPrefix size (HasAmpleRoom f txns) tree base history m image →
        IsRefused size image fault → ⊥ }
{}

/// What a format leaves of a disk on which nothing was loose: an image with the first superblock,
/// no transactions, and the root alone, which a session can go on from.
pub fn formatted_laws()
    ensures image { (size ring calls : ℕ) (before after : DiskRecord) (image : List (List ℕ)) →
        IsSettled before → IsRecordOf size calls after → IsFormatted size ring before after →
        LeftNow after image → IsImage size image (first_fields size ring) [] root }
    ensures mounts { (size ring calls : ℕ) (before after : DiskRecord) (image : List (List ℕ)) →
        IsSettled before → IsRecordOf size calls after → IsFormatted size ring before after →
        LeftNow after image → IsMountable size image (first_fields size ring) [] root }
    ensures room { (size ring : ℕ) → HasAmpleRoom (first_fields size ring) [] }
{}
