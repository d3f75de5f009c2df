ghost use Rattle.std.specs.Prelude.{◌≡◌, ◌++◌};
ghost use Rattle.ask_seats.specs.Replies.{lines_text, Reply};
ghost use Rattle.std.specs.Prelude.{List};

/// A law: the lines of replies, one list behind another.
pub fn texts_append()
    ensures { (rs qs : List Reply) → lines_text (rs ++ qs) ≡ lines_text rs ++ lines_text qs }
{}
