//! What holds of the texts, as functions that do nothing: the clause is the law.
ghost use Rattle.image_text.specs.Grammar.{HasMeaning, SaysOneImage, BreaksAtOneLine, BreaksNowhere};
ghost use Rattle.image_text.specs.Written.{WrittenReads, ReadIsWritable};

/// Each text is that of an image, or a line is the first that breaks the grammar.
pub fn texts_have_meanings()
    ensures { HasMeaning }
{}

/// A text is that of one image at most.
pub fn texts_say_one_image()
    ensures { SaysOneImage }
{}

/// A text breaks at one line at most.
pub fn texts_break_at_one_line()
    ensures { BreaksAtOneLine }
{}

/// The text of an image breaks at no line.
pub fn image_texts_break_nowhere()
    ensures { BreaksNowhere }
{}

/// The text that is written of an image is that image's.
pub fn written_texts_read()
    ensures { WrittenReads }
{}

/// What a text says can be written.
pub fn read_images_are_writable()
    ensures { ReadIsWritable }
{}
