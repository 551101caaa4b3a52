//! What holds of the words.
ghost use Rattle.cov_serve.specs.Forms.{SaysItsForm};

/// What words say is what one of the forms says of them, and words of none of the forms say nothing.
pub fn says_its_form()
    ensures { SaysItsForm }
{}
