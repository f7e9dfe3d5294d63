//! The worked figures of the annex, checked of the definitions that the contracts cite.
ghost use Rattle.valuer.specs.Figures.{Figures};

/// Proves the worked figures.
pub fn figures_hold()
    ensures { Figures }
{}
