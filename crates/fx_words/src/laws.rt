//! Laws of the grammar, for those who prove: the functions do nothing.
ghost use Rattle.std.specs.Prelude.{◌≡◌, ℕ, List, Ok, Err};
ghost use Rattle.fx_script.specs.Line.{line_of};
ghost use Rattle.fx_words.specs.declared.built.Built.{Built};
ghost use Rattle.fx_words.specs.declared.line.FullLine.{FullLine};
ghost use Rattle.fx_words.specs.Lines.{as_full, full_line_of, none_built};
ghost use Rattle.fx_words.specs.FullText.{FullLineKeepsRules};

/// Where no further word is built, a line says what it says in a script of the first steps, and has
/// the same fault.
pub fn word_laws()
    ensures first { (line : List ℕ) → full_line_of none_built line ≡ as_full (line_of line) }
{}

/// A line that is read keeps the rules, whatever words are built: its paths, numbers, names and
/// texts are those of words, and a group has 2 to 64 steps that change the tree.
pub fn rule_laws()
    ensures { (built : Built) (line : List ℕ) (said : FullLine)
        → full_line_of built line ≡ Ok said → FullLineKeepsRules said }
{}
