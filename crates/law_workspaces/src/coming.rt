//! A law of outputs that come.
ghost use Rattle.law_workspaces.specs.Added.{AddsOther};

/// An output that comes has its planned name, and where the names of outputs differed before, they differ afterwards.
pub fn an_output_that_comes_has_another_name()
    ensures { AddsOther }
{}
