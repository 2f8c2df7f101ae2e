// How a piece maps a sample.

// Whether the coefficients of an MMR piece are so small that one product a term is enough.
#[derive(Clone, Copy)]
pub(crate) enum Width {
    Narrow,
    Wide,
}

// A broken piece has numbers beyond their ranges, and maps to 0. An MMR piece has its width in a field of its own: of
// four kinds in one number the compiler makes a table of jumps, which processors guess worse than comparisons.
#[derive(Clone, Copy)]
pub(crate) enum Kind {
    Polynomial,
    Mmr(Width),
    Broken,
}
