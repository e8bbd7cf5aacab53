//! What is said of words and causes. The law is a function with nothing to do.
ghost use Rattle.store_words.specs.Laws.{WordsHaveNoCause};

/// The words of a command, with as many directories behind them as it takes, are refused for nothing.
pub fn words_have_no_cause()
    ensures { WordsHaveNoCause }
{}
