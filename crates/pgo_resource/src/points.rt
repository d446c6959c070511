// Choices that were made, and where the next leaf leaves them.
ghost use Rattle.std.specs.Prelude.{◌≡◌, ◌<◌, ◌≤◌, map, length, option_map, IfSome, vec_capacity};
ghost use Rattle.std.specs.List.{All};
ghost use Rattle.pgo_model.specs.Choice as choice;
ghost use Rattle.pgo_model.specs.Choice.{word_at};
ghost use Rattle.pgo_tries.specs.Chosen.{turned};
ghost use Rattle.pgo_tries.specs.Chosen as chosen;
ghost use Rattle.pgo_resource.specs.Points.{source_of, point_view, turned_to, IsPick};

use rand_core::utils::NextWord;
use rand_pcg::Pcg32;

/// Where words of choice come from.
#[derive(Drop)]
pub enum Source {
    /// these, and then 0
    Listed(Vec<u32>),
    /// the generator of an attempt of an instance under a seed
    Seeded {
        seed: u64,
        instance: u32,
        attempt: u32,
    },
}

/// A choice that was made: of how many, and the number of the one that was taken.
#[derive(Clone, Copy)]
pub struct Point {
    pub count: usize,
    pub taken: usize,
}

/// Where the next leaf leaves this one, and what it picks there.
#[derive(Clone, Copy)]
pub struct Turn {
    pub at: usize,
    pub pick: usize,
}

/// The last of these choices at which a pick is left that wasn't made, and the next pick there.
pub fn last_turn(source: &Source, points: &[Point]) -> Option<Turn>
    requires picks { All IsPick points.now }
    ensures turned { option_map (turned_to points.now) result ≡ turned (choice.words_of (source_of source.now)) 0 (map point_view points.now) }
    ensures below { IfSome result (λ t. t.at < length points.now) }
{
    let mut i = points.len();
    while i > 0 {
        i -= 1;
        let point = points[i];
        let next = following(point);
        if next != word_of(source, i as u64) as usize % point.count {
            return Some(Turn { at: i, pick: next });
        }
    }
    None
}

/// The path to the turn, in place of what was written. It takes no memory.
pub fn write_path(path: &mut Vec<usize>, points: &[Point], turn: Turn)
    requires below { turn.at < length points.now }
    requires room { length points.now ≤ vec_capacity path.old }
    ensures items { path.new.items ≡ turned_to points.now turn }
    ensures capacity { vec_capacity path.new ≡ vec_capacity path.old }
{
    path.clear();
    for point in &points[..turn.at] {
        path.push_reserved(point.taken);
    }
    path.push_reserved(turn.pick);
}

/// The number after the one that was taken, and 0 behind the last.
fn following(point: Point) -> usize
    requires { IsPick point }
    ensures { result ≡ chosen.following (point_view point) }
{
    if point.taken + 1 == point.count {
        0
    } else {
        point.taken + 1
    }
}

/// The word with this number, from 0.
pub fn word_of(source: &Source, number: u64) -> u32
    ensures { result ≡ choice.words_of (source_of source.now) number }
{
    match source {
        Source::Listed(words) => listed_word(words, number),
        Source::Seeded {
            seed,
            instance,
            attempt,
        } => seeded_word(*seed, *instance, *attempt, number),
    }
}

/// The word at this place, and 0 behind the last.
fn listed_word(words: &[u32], number: u64) -> u32
    ensures { result ≡ word_at words.now number }
{
    let i = number as usize;
    if i < words.len() { words[i] } else { 0 }
}

/// The word with this number that the generator of the attempt gives, after a jump over those before it, in at most 64 steps.
fn seeded_word(seed: u64, instance: u32, attempt: u32, number: u64) -> u32
    ensures { result ≡ choice.words_of (choice.Seeded seed instance attempt) number }
{
    let mut generator = Pcg32::new(seed.wrapping_add(u64::from(attempt)), u64::from(instance));
    generator.advance(number);
    generator.next_word()
}
