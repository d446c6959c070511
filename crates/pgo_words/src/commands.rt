// The words of commands.
ghost use Rattle.pgo_words.specs.Reads as spec;

use pgo_text::names::same_bytes;

/// Which command a word is.
#[derive(Clone, Copy)]
pub enum CommandName {
    Compile,
    Expand,
    Step,
    Run,
    Check,
    Migrate,
    Load,
}

/// The command that this word is; none where it is none.
pub fn find_command(word: &[u8]) -> Option<CommandName>
    ensures { spec.IsWordOf word.now result }
{
    if same_bytes(word, b"compile") {
        Some(CommandName::Compile)
    } else if same_bytes(word, b"expand") {
        Some(CommandName::Expand)
    } else if same_bytes(word, b"step") {
        Some(CommandName::Step)
    } else if same_bytes(word, b"run") {
        Some(CommandName::Run)
    } else if same_bytes(word, b"check") {
        Some(CommandName::Check)
    } else if same_bytes(word, b"migrate") {
        Some(CommandName::Migrate)
    } else if same_bytes(word, b"load") {
        Some(CommandName::Load)
    } else {
        None
    }
}
