// A text cut at the first place of a byte.
ghost use Rattle.std.specs.Prelude.{◌<◌};
ghost use Rattle.pgo_words.specs.Cuts.{Cuts};

/// The parts of a text before and behind the first place of a byte below 128.
pub fn cut(text: &str, at: char) -> Option<(&str, &str)>
    requires { at < 128 }
    ensures { Cuts at text.now result }
{
    text.split_once(at)
}
