//! Worked lines, for those who read and prove: the functions do nothing. Each clause is one line
//! and what it says, or its first fault.
ghost use Rattle.std.specs.Prelude.{◌≡◌, List, [], ◌∷◌, ◌++◌, Ok, Err, codes, replicate, false};
ghost use Rattle.std.specs.List.{concat};
ghost use Rattle.fx_plain.specs.declared.step.Step.TheVariants.{Create, Write};
ghost use Rattle.fx_steps.specs.declared.step.TreeStep.TheVariants.{Basic, Truncate, Remove, Rename, SetAttr, DelAttr, GetAttr};
ghost use Rattle.fx_script.specs.declared.fault.LineFault.TheVariants.{BadNumber, BadPath, BadText, Empty, NotAscii, UnknownWord, WordCount};
ghost use Rattle.fx_words.specs.declared.fault.WordFault.TheVariants.{GroupedLine, BadName, TooManySteps};
ghost use Rattle.fx_words.specs.declared.line.FullLine.TheVariants.{Single, Group, Sync, Compact};
ghost use Rattle.fx_words.specs.Lines.{Says, all_built, basic_fault, full_line_of};

/// A truncation, and its faults in their order.
pub fn truncation_lines()
    ensures good { Says (codes "trunc /v/f 4097")
        (Ok (Single (Truncate (codes "v" ∷ codes "f" ∷ []) 4097))) }
    ensures count { Says (codes "trunc v") (basic_fault WordCount) }
    ensures more { Says (codes "trunc v x x") (basic_fault WordCount) }
    ensures path { Says (codes "trunc v x") (basic_fault BadPath) }
    ensures number { Says (codes "trunc /v/f 01") (basic_fault BadNumber) }
{}

/// A removal and a move, and their faults in their order.
pub fn removal_lines()
    ensures rm { Says (codes "rm /v/f") (Ok (Single (Remove (codes "v" ∷ codes "f" ∷ [])))) }
    ensures rm_count { Says (codes "rm v v") (basic_fault WordCount) }
    ensures rm_path { Says (codes "rm v") (basic_fault BadPath) }
    ensures mv { Says (codes "mv /v/f /v/g%20h")
        (Ok (Single (Rename (codes "v" ∷ codes "f" ∷ []) (codes "v" ∷ codes "g h" ∷ [])))) }
    ensures mv_count { Says (codes "mv v") (basic_fault WordCount) }
    ensures mv_from { Says (codes "mv v /w") (basic_fault BadPath) }
    ensures mv_to { Says (codes "mv /v w") (basic_fault BadPath) }
{}

/// An attribute is set, and the faults in their order. A text has 1 to 256 bytes.
pub fn setattr_lines()
    ensures good { Says (codes "setattr /v k w%20x")
        (Ok (Single (SetAttr (codes "v" ∷ []) (codes "k") (codes "w x")))) }
    ensures count { Says (codes "setattr v .") (basic_fault WordCount) }
    ensures path { Says (codes "setattr v . ") (basic_fault BadPath) }
    ensures name { Says (codes "setattr /v . ") (Err BadName) }
    ensures name_slash { Says (codes "setattr /v k%2f x") (Err BadName) }
    ensures none { Says (codes "setattr /v k ") (basic_fault BadText) }
    ensures full { Says (codes "setattr /v k " ++ replicate 256 120)
        (Ok (Single (SetAttr (codes "v" ∷ []) (codes "k") (replicate 256 120)))) }
    ensures long { Says (codes "setattr /v k " ++ replicate 257 120) (basic_fault BadText) }
{}

/// An attribute is taken away or told, and the faults in their order.
pub fn attribute_lines()
    ensures delattr { Says (codes "delattr /v k")
        (Ok (Single (DelAttr (codes "v" ∷ []) (codes "k")))) }
    ensures delattr_count { Says (codes "delattr v . x") (basic_fault WordCount) }
    ensures delattr_path { Says (codes "delattr v .") (basic_fault BadPath) }
    ensures delattr_name { Says (codes "delattr /v .") (Err BadName) }
    ensures attr { Says (codes "attr /v k") (Ok (Single (GetAttr (codes "v" ∷ []) (codes "k")))) }
    ensures attr_count { Says (codes "attr v") (basic_fault WordCount) }
    ensures attr_path { Says (codes "attr v .") (basic_fault BadPath) }
    ensures attr_name { Says (codes "attr /v ..") (Err BadName) }
{}

/// Groups: two steps, a part without words at either end, a part that is no step that changes the
/// tree, and which fault counts.
pub fn group_lines()
    ensures two { Says (codes "create /v/a ; write /v/a 0 x")
        (Ok (Group (Basic (Create (codes "v" ∷ codes "a" ∷ []))
        ∷ Basic (Write (codes "v" ∷ codes "a" ∷ []) 0 (codes "x")) ∷ []))) }
    ensures empty_first { Says (codes "; rm /v") (basic_fault UnknownWord) }
    ensures empty_last { Says (codes "rm /v ;") (basic_fault UnknownWord) }
    ensures alone { Says (codes "create /v/a ; list /v") (Err GroupedLine) }
    ensures attr { Says (codes "attr ; rm /v") (Err GroupedLine) }
    ensures first { Says (codes "rm v ; sync") (basic_fault BadPath) }
    ensures full { Says (codes "rm /v" ++ concat (replicate 63 (codes " ; rm /v")))
        (Ok (Group (replicate 64 (Remove (codes "v" ∷ []))))) }
    ensures long { Says (codes "rm /v" ++ concat (replicate 64 (codes " ; rm /v")))
        (Err TooManySteps) }
{}

/// Lines of one word, and lines without a word that is known.
pub fn lone_lines()
    ensures sync { Says (codes "sync") (Ok Sync) }
    ensures compact { Says (codes "compact") (Ok Compact) }
    ensures compact_count { Says (codes "compact x") (basic_fault WordCount) }
    ensures first { Says (codes "create /v/a")
        (Ok (Single (Basic (Create (codes "v" ∷ codes "a" ∷ []))))) }
    ensures unknown { Says (codes "truncate /v/f 1") (basic_fault UnknownWord) }
    ensures empty { Says [] (basic_fault Empty) }
    ensures ascii { Says (codes "rm " ++ 128 ∷ []) (basic_fault NotAscii) }
{}

/// Where a word is not built, a line with it is of an unknown word, whatever else is wrong with it.
pub fn unbuilt_lines()
    ensures truncation { full_line_of (record all_built { truncation = false }) (codes "trunc v")
        ≡ basic_fault UnknownWord }
    ensures groups { full_line_of (record all_built { groups = false }) (codes "rm /v ; list /v")
        ≡ basic_fault UnknownWord }
    ensures compaction { full_line_of (record all_built { compaction = false }) (codes "compact x")
        ≡ basic_fault UnknownWord }
    ensures compaction_part { full_line_of (record all_built { compaction = false })
        (codes "compact ; rm /v") ≡ basic_fault UnknownWord }
    ensures removal { full_line_of (record all_built { removal = false }) (codes "mv v")
        ≡ basic_fault UnknownWord }
    ensures removal_part { full_line_of (record all_built { removal = false })
        (codes "attr v ; create v") ≡ basic_fault UnknownWord }
{}
