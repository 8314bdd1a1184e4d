ghost use Rattle.sheet_text.specs.Writing.{ReadsBack};

/// Rows within range, written as text with any of their fields between quotation marks and with or
/// without the last line's end, are read back as they were.
pub fn reads_back_what_was_written()
    ensures { ReadsBack }
{}
