// What the lines of a table set for the rows behind them.
use c2_test_tables::Trouble;
use std::alloc::Global;

/// The hash of a run.
#[derive(Clone, Copy, PartialEq, Eq)]
pub enum Hash {
    /// SHA-256.
    Sha,

    /// The sum of the bytes, whose digests collide.
    WeakSum,
}

/// What a row is of.
#[derive(Clone, Copy)]
pub enum View {
    /// A run over the media.
    Run,

    /// The run, and a run for each call at which an object fails.
    EachCall,

    /// What runs over each prefix of the media come to.
    Prefixes,

    /// The statuses of runs over the media with one byte changed, for each byte.
    Changes,

    /// The roles of the words.
    Roles,
}

/// An object that fails.
#[derive(Clone, Copy)]
pub enum Object {
    /// The first file.
    Media,

    /// The second file.
    Second,

    /// The third file.
    Third,

    /// The fourth file.
    Fourth,

    /// A judge.
    Judge,

    /// The new file.
    Out,

    /// The report.
    Report,
}

/// An object, and its call that fails, from 1 on; none where this is 0.
#[derive(Clone, Copy)]
pub struct Fault {
    pub object: Object,
    pub call: u64,
}

impl Fault {
    /// The call of this object that fails; 0 where none does.
    pub fn of(self, object: Object) -> u64 {
        if self.object as u8 == object as u8 {
            self.call
        } else {
            0
        }
    }
}

/// What is set.
#[derive(Drop)]
pub struct Settings {
    /// The words of the command line.
    pub words: Vec<String>,

    /// The hash.
    pub hash: Hash,

    /// How many bytes the packets have at most in which the media stands as a store; none: the media is the file.
    pub packets: Vec<usize>,

    /// The lengths of pieces in which the files are read, and the report and the new file are taken.
    pub pieces: Vec<(usize, usize)>,

    /// The judges, as `judges` reads them.
    pub judges: String,

    /// How many bytes the report takes.
    pub room: usize,

    /// How many bytes the new file takes; none: its first call fails.
    pub out: Option<usize>,

    /// How many bytes the first file has, where it is the front of a file of zeros.
    pub size: Option<usize>,

    /// What fails.
    pub fault: Fault,

    /// What a row is of.
    pub view: View,

    /// The status of a run in which the object fails.
    pub status: u8,

    /// How many calls the object has at least.
    pub least: u64,

    /// Whether a report that isn't finished may hold a part of the whole one.
    pub part: bool,

    /// How often judges may have been asked before a fault, a number each; empty: that isn't looked at.
    pub asked: String,

    /// How many bytes stand before the first that is changed, and behind the last.
    pub around: (usize, usize),
}

impl Settings {
    /// What is set at first.
    pub fn new(alloc: Global) -> Settings {
        let fault = Fault {
            object: Object::Media,
            call: 0,
        };
        Settings {
            words: Vec::new(alloc),
            hash: Hash::Sha,
            packets: Vec::new(alloc),
            pieces: Vec::new(alloc),
            judges: String::new(alloc),
            room: 1000,
            out: None,
            size: None,
            fault,
            view: View::Run,
            status: 0,
            least: 1,
            part: false,
            asked: String::new(alloc),
            around: (0, 0),
        }
    }

    /// Sets what a line says.
    pub fn set(&mut self, alloc: Global, key: &str, value: &str) -> Result<(), Trouble> {
        match key {
            "words" => keep(&mut self.words, words_of(alloc, value)),
            "packets" => keep(&mut self.packets, numbers_of(alloc, value)),
            "pieces" => keep(&mut self.pieces, pairs_of(alloc, value)),
            "judges" => keep(&mut self.judges, text_of(alloc, value)),
            "asked" => keep(&mut self.asked, text_of(alloc, value)),
            _ => self.set_plain(key, value),
        }
    }

    // Sets what takes no memory.
    fn set_plain(&mut self, key: &str, value: &str) -> Result<(), Trouble> {
        match key {
            "hash" => keep(&mut self.hash, hash_of(value)),
            "room" => keep(&mut self.room, size_of(value)),
            "out" => keep(&mut self.out, number_of(value)),
            "size" => keep(&mut self.size, number_of(value)),
            "fault" => keep(&mut self.fault, fault_of(value)),
            "view" => keep(&mut self.view, view_of(value)),
            "around" => keep(&mut self.around, pair_of(value)),
            _ => self.set_expected(key, value),
        }
    }

    // Sets what a run with a fault may come to.
    fn set_expected(&mut self, key: &str, value: &str) -> Result<(), Trouble> {
        match key {
            "status" => keep(&mut self.status, status_of(value)),
            "least" => keep(&mut self.least, count_of(value)),
            "part" => keep(&mut self.part, Ok(value == "yes")),
            _ => Err(Trouble::BadLine),
        }
    }
}

// Puts a value into its place, where it could be read.
fn keep<T: Drop>(place: &mut T, value: Result<T, Trouble>) -> Result<(), Trouble> {
    *place = value?;
    Ok(())
}

// The text of a line.
fn text_of(alloc: Global, line: &str) -> Result<String, Trouble> {
    Ok(String::from_str(alloc, line)?)
}

// A number of bytes.
fn size_of(word: &str) -> Result<usize, Trouble> {
    Ok(word.parse::<usize>()?)
}

// A number of calls.
fn count_of(word: &str) -> Result<u64, Trouble> {
    Ok(word.parse::<u64>()?)
}

// A status.
fn status_of(word: &str) -> Result<u8, Trouble> {
    Ok(word.parse::<u8>()?)
}

// The words of a line, a space between them; `''` is an empty word.
fn words_of(alloc: Global, line: &str) -> Result<Vec<String>, Trouble> {
    let mut words = Vec::new(alloc);
    for word in line.split_whitespace() {
        let word = if word == "''" { "" } else { word };
        words.push(String::from_str(alloc, word)?)?;
    }
    Ok(words)
}

// A number, or `none`.
fn number_of(word: &str) -> Result<Option<usize>, Trouble> {
    if word == "none" {
        return Ok(None);
    }
    Ok(Some(size_of(word)?))
}

// Numbers, a space between them.
fn numbers_of(alloc: Global, line: &str) -> Result<Vec<usize>, Trouble> {
    let mut numbers = Vec::new(alloc);
    for word in line.split_whitespace() {
        numbers.push(size_of(word)?)?;
    }
    Ok(numbers)
}

// Pairs of numbers, a space between them.
fn pairs_of(alloc: Global, line: &str) -> Result<Vec<(usize, usize)>, Trouble> {
    let mut pairs = Vec::new(alloc);
    for word in line.split_whitespace() {
        pairs.push(pair_of(word)?)?;
    }
    Ok(pairs)
}

// Two numbers with a slash between them, or one that is both.
fn pair_of(word: &str) -> Result<(usize, usize), Trouble> {
    let (first, second) = word.split_once('/').unwrap_or((word, word));
    Ok((size_of(first)?, size_of(second)?))
}

// The hash of this name.
fn hash_of(name: &str) -> Result<Hash, Trouble> {
    match name {
        "sha" => Ok(Hash::Sha),
        "weak" => Ok(Hash::WeakSum),
        _ => Err(Trouble::BadLine),
    }
}

// The view of this name.
fn view_of(name: &str) -> Result<View, Trouble> {
    match name {
        "run" => Ok(View::Run),
        "each call" => Ok(View::EachCall),
        "prefixes" => Ok(View::Prefixes),
        "changes" => Ok(View::Changes),
        "roles" => Ok(View::Roles),
        _ => Err(Trouble::BadLine),
    }
}

// An object and the number of its call, a space between them; the number is 0 where there is none.
fn fault_of(line: &str) -> Result<Fault, Trouble> {
    let (name, call) = line.split_once(' ').unwrap_or((line, "0"));
    Ok(Fault {
        object: object_of(name)?,
        call: count_of(call)?,
    })
}

// The object of this name.
fn object_of(name: &str) -> Result<Object, Trouble> {
    match name {
        "media" => Ok(Object::Media),
        "second" => Ok(Object::Second),
        "third" => Ok(Object::Third),
        "fourth" => Ok(Object::Fourth),
        "judge" => Ok(Object::Judge),
        "out" => Ok(Object::Out),
        "report" => Ok(Object::Report),
        _ => Err(Trouble::BadLine),
    }
}
