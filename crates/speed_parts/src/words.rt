//! The words of the command line.
ghost use Rattle.std.specs.Prelude.{◌<◌, ◌≤◌};
ghost use Rattle.speed_parts.specs.Draws.{most_size};

/// What is worked.
#[derive(Clone, Copy, Debug)]
pub enum Part {
    Step,
    Select,
    Import,
    Target,
    TargetOfFour,
}

/// What the words ask for: a part of a size, so many times.
#[derive(Clone, Copy, Debug)]
pub struct Task {
    pub part: Part,
    pub size: u32,
    pub count: u64,
    ghost sized: { (0 < size) × (size ≤ most_size) },
}

/// The greatest size of a part, and the most records that a table takes in.
pub(crate) const MOST_SIZE: u32 = 16_777_216;

/// What the words ask for, the program's name first; none where they are bad.
pub fn task_of(words: &[String]) -> Option<Task> {
    let [_program, part, size, count] = words else {
        return None;
    };
    let part = part_of(part.as_str())?;
    let size = size.as_str().parse::<u32>().ok()?;
    let count = count.as_str().parse::<u64>().ok()?;
    if size == 0 || size > MOST_SIZE {
        return None;
    }
    Some(Task { part, size, count })
}

/// The part of this word, if there is one.
fn part_of(word: &str) -> Option<Part> {
    match word {
        "step" => Some(Part::Step),
        "select" => Some(Part::Select),
        "import" => Some(Part::Import),
        "target" => Some(Part::Target),
        "target-4" => Some(Part::TargetOfFour),
        _ => None,
    }
}
