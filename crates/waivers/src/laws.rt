//! What holds of the reading of waivers files. Each function does nothing: it stands for the law that it ensures.
ghost use Rattle.waivers.specs.Forms.{LinesSayWaivers, LinesSayNothing, TextsSayWaivers};

/// A line within its limit is read as a waiver exactly where it has the form of that waiver.
pub fn lines_say_waivers()
    ensures { LinesSayWaivers }
{}

/// A line within its limit is passed over exactly where it is blank or a comment.
pub fn lines_say_nothing()
    ensures { LinesSayNothing }
{}

/// A text is read as waivers exactly where each of its lines is one of them or is passed over, within the limits.
pub fn texts_say_waivers()
    ensures { TextsSayWaivers }
{}
