//! What the definitions promise of themselves.

ghost use Rattle.pq_metadata.specs.FlatFooter.{FlatFormsAreFooters};
ghost use Rattle.pq_metadata.specs.Frame.{FramesAreTold};
ghost use Rattle.pq_metadata.specs.Laws.{FootersAreUnique, HeadersAreUnique};

/// A Thrift value is at most one footer.
pub fn footers_are_unique()
    ensures { FootersAreUnique }
{}

/// A Thrift value is at most one page header.
pub fn headers_are_unique()
    ensures { HeadersAreUnique }
{}

/// A frame that is told from the front is told from the back, and the other way round.
pub fn frames_are_told()
    ensures { FramesAreTold }
{}

/// A struct is a footer exactly where it is the footer's flat form.
pub fn flat_forms_are_footers()
    ensures { FlatFormsAreFooters }
{}
