//! What holds of all words.

ghost use Rattle.pc_words.specs.Taken.{WordsOrderOneThing};

/// Words order one thing: no two orders have one plain form, and `clap` is asked about no word list
/// that is in one.
pub fn words_order_one_thing()
    ensures { WordsOrderOneThing }
{}
