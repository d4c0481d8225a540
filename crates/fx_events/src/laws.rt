//! Laws of notes and of the ends of lines, for those who prove. The functions do nothing.
ghost use Rattle.std.specs.Prelude.{◌≡◌, ℕ, ◌<◌, List, [], ◌∷◌, ◌++◌, All, Some, map, slice_get};
ghost use Rattle.fx_plain.specs.Tree.{Tree};
ghost use Rattle.fx_script.specs.declared.script.Task.{Task};
ghost use Rattle.fx_history.specs.declared.entry.Entry.{Entry};
ghost use Rattle.fx_history.specs.Outcome.{LineEnd};
ghost use Rattle.fx_history.specs.History.{Legal, tree_at};
ghost use Rattle.fx_history.specs.Text.{result_text};
ghost use Rattle.fx_history.specs.Transcript.{Session, Transcript};
ghost use Rattle.fx_events.specs.Notes.{AreNotes, ComesAfter, GoesOnTo, IsNextNote, Mounted, Note, entries_in, history_in};
ghost use Rattle.fx_events.specs.Lines.{AreEnds, AreEndsOfOne, ended_of, sent_of};
ghost use Rattle.fx_events.specs.ByClient.{text_by_client};

/// The notes since a mount: one more may follow where it may; the history that is read off them is
/// legal; when its entries were settled changes no tree; and one more note leaves the entries that
/// were there, of which a flush settles some by its own calls.
pub fn note_laws()
    ensures next { (mounted : Mounted) (notes : List Note) (note : Note) → AreNotes mounted notes
        → IsNextNote mounted notes note → AreNotes mounted (notes ++ note ∷ []) }
    ensures legal { (mounted : Mounted) (notes : List Note) → AreNotes mounted notes
        → Legal mounted.tree mounted.kept (history_in notes) }
    ensures tree { (tree : Tree) (notes : List Note) (number : ℕ)
        → tree_at tree (history_in notes) number ≡ tree_at tree (entries_in notes) number }
    ensures goes_on { (calls : ℕ) (notes : List Note) (note : Note) → ComesAfter calls note
        → GoesOnTo calls (history_in notes) (history_in (notes ++ note ∷ [])) }
{}

/// The ends of lines over a history are ends over notes that have this history. Where there is no
/// upkeep, those of a session of one client are the ends of one that is alone.
pub fn end_laws()
    ensures transcript { (mounted : Mounted) (notes : List Note) (tasks : List Task)
        (outcomes : List LineEnd) → AreNotes mounted notes
        → Transcript mounted.tree mounted.kept (history_in notes) tasks outcomes
        → AreEnds mounted notes (map sent_of tasks) (map ended_of outcomes) }
    ensures session { (mounted : Mounted) (notes : List Note) (tasks : List Task)
        (outcomes : List LineEnd) → AreNotes mounted notes
        → ((i : ℕ) (entry : Entry) → slice_get (entries_in notes) i ≡ Some entry → 0 < entry.who)
        → Session mounted.tree mounted.kept (history_in notes) tasks outcomes
        → AreEndsOfOne notes (map ended_of outcomes) }
{}

/// Client by client, the result lines of a script of client 1 alone are those in the order of its
/// lines.
pub fn text_law()
    ensures { (tasks : List Task) (ends : List LineEnd) → All (λ task. task.client ≡ 1) tasks
        → text_by_client tasks ends ≡ result_text tasks ends }
{}
