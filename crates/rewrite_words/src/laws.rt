//! Laws of the words.
ghost use Rattle.rewrite_words.specs.Examples.{AreWorked};
ghost use Rattle.rewrite_words.specs.Laws.{IsInAnyOrder};
ghost use Rattle.rewrite_words.specs.Sample.{FormsExclude};

/// Words in another order ask for the same.
pub fn order_does_not_matter()
    ensures { IsInAnyOrder }
{}

/// Words that ask for a sample are no options.
pub fn forms_exclude()
    ensures { FormsExclude }
{}

/// Worked examples of words.
pub fn as_worked()
    ensures { AreWorked }
{}
