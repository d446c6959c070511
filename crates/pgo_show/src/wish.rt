// What words ask for.
ghost use Rattle.std.specs.Prelude.{◌≡◌, if◌then◌else◌, codes, None, Some, option_map};
ghost use Rattle.pgo_model.specs.ValueText.{same_bytes};
ghost use Rattle.pgo_show.specs.Wishes as spec;

use pgo_base::word::Word;
use pgo_lexer::bytes::is_same;

/// What is made of a bundle.
#[derive(Clone, Copy)]
pub enum Request<'a> {
    /// The text that explains it.
    Explanation,
    /// Its picture.
    Picture,
    /// The values of a component.
    Changes(&'a Word),
}

/// The picture, where the word is `--svg`.
fn picture_asked<'a>(word: &Word) -> Option<Request<'a>>
    ensures { option_map spec.wish_of result ≡ (if same_bytes word.now (codes "--svg") then Some spec.Picture else None) }
{
    if is_same(word.as_str().as_bytes(), b"--svg") {
        Some(Request::Picture)
    } else {
        None
    }
}

/// The values of a component, where the word before it is `--changes`.
fn changes_asked<'a>(word: &Word, component: &'a Word) -> Option<Request<'a>>
    ensures { option_map spec.wish_of result ≡ (if same_bytes word.now (codes "--changes") then Some (spec.Changes component.now) else None) }
{
    if is_same(word.as_str().as_bytes(), b"--changes") {
        Some(Request::Changes(component))
    } else {
        None
    }
}

/// What the words ask for; none where they ask for nothing that there is.
pub fn request_of(words: &[Word]) -> Option<Request<'_>>
    ensures { option_map spec.wish_of result ≡ spec.asked words.now }
{
    match words {
        [] => Some(Request::Explanation),
        [word] => picture_asked(word),
        [word, component] => changes_asked(word, component),
        [_, _, _, ..] => None,
    }
}

/// The component that is asked for.
pub fn component_of<'a>(request: Request<'a>) -> &'a [u8]
    ensures { result.now ≡ spec.component_of (spec.wish_of request.entry) }
{
    match request {
        Request::Explanation | Request::Picture => &[],
        Request::Changes(component) => component.as_str().as_bytes(),
    }
}
