//! What holds of every stream, for those who prove: the functions do nothing.
ghost use Rattle.std.specs.Prelude.{◌≡◌, ℕ, ◌+◌, ◌<◌, ◌≤◌, ◌^◌, ◌⊎◌, List, [], ◌∷◌, ◌++◌, length};
ghost use Rattle.fx_jblock.specs.declared.Start.{Start};
ghost use Rattle.fx_journal.specs.declared.stream.StreamBlock.{StreamBlock};
ghost use Rattle.fx_journal.specs.Stream.{place_after, bytes_for, StandsAt, IsRun, IsStream, IsSeries, SameRing};

/// A run is cut and continued at each of its places.
pub fn runs_in_parts()
    ensures cut { (contents : List (List ℕ)) (ring generation : ℕ) (start next : Start)
        (front back : List StreamBlock) →
        IsRun contents ring generation start (front ++ back) next →
        (place : Start) × IsRun contents ring generation start front place ×
        IsRun contents ring generation place back next }
    ensures joined { (contents : List (List ℕ)) (ring generation : ℕ) (start place next : Start)
        (front back : List StreamBlock) →
        IsRun contents ring generation start front place →
        IsRun contents ring generation place back next →
        IsRun contents ring generation start (front ++ back) next }
    ensures one_more { (contents : List (List ℕ)) (ring generation : ℕ) (start place : Start)
        (blocks : List StreamBlock) (block : StreamBlock) →
        IsRun contents ring generation start blocks place →
        StandsAt contents ring generation place block →
        IsRun contents ring generation start (blocks ++ block ∷ []) (place_after place block) }
{}

/// The sequences of a run follow each other, and the blocks of a run are ones that may.
pub fn sequences_of_runs()
    ensures next { (contents : List (List ℕ)) (ring generation : ℕ) (start next : Start)
        (blocks : List StreamBlock) →
        IsRun contents ring generation start blocks next →
        next.sequence ≡ start.sequence + length blocks }
    ensures series { (contents : List (List ℕ)) (ring generation : ℕ) (start next : Start)
        (blocks : List StreamBlock) →
        IsRun contents ring generation start blocks next → IsSeries generation start blocks next }
{}

/// A start has one run of each length, and one stream.
pub fn one_stream()
    ensures run { (contents : List (List ℕ)) (ring generation : ℕ) (start p q : Start)
        (xs ys : List StreamBlock) →
        generation < 2 ^ 64 → start.sequence + length xs ≤ 2 ^ 64 → length xs ≡ length ys →
        IsRun contents ring generation start xs p → IsRun contents ring generation start ys q →
        (xs ≡ ys) × (p ≡ q) }
    ensures stream { (contents : List (List ℕ)) (ring generation : ℕ) (start p q : Start)
        (xs ys : List StreamBlock) →
        generation < 2 ^ 64 → start.sequence + ring ≤ 2 ^ 64 →
        IsStream contents ring generation start xs p →
        IsStream contents ring generation start ys q → (xs ≡ ys) × (p ≡ q) }
{}

/// A run that has the ring's length, or that no block continues, is the stream.
pub fn ended_runs()
    ensures { (contents : List (List ℕ)) (ring generation : ℕ) (start next : Start)
        (blocks : List StreamBlock) →
        generation < 2 ^ 64 → start.sequence + ring ≤ 2 ^ 64 →
        IsRun contents ring generation start blocks next → length blocks ≤ ring →
        (length blocks ≡ ring) ⊎
        ((block : StreamBlock) → StandsAt contents ring generation next block → ⊥) →
        IsStream contents ring generation start blocks next }
{}

/// A run depends on the blocks that it stands in alone, and a stream on the ring alone.
pub fn same_ring()
    ensures run { (contents others : List (List ℕ)) (ring generation : ℕ) (start next : Start)
        (blocks : List StreamBlock) →
        ((k : ℕ) → k < length blocks →
        bytes_for contents ring (start.sequence + k)
        ≡ bytes_for others ring (start.sequence + k)) →
        IsRun contents ring generation start blocks next →
        IsRun others ring generation start blocks next }
    ensures stream { (contents others : List (List ℕ)) (ring generation : ℕ) (start next : Start)
        (blocks : List StreamBlock) →
        1 ≤ ring → SameRing ring contents others →
        IsStream contents ring generation start blocks next →
        IsStream others ring generation start blocks next }
{}
