//! The table of the command line: the commands, their plain words and their options.
//!
//! Each function gives one column of the grammar's rows in `specs/Grammar.antt`, and is proved to.
ghost use Rattle.std.specs.Prelude.{◌≡◌, ◌<◌};
ghost use Rattle.rs01_words.specs.Grammar.{name_of, named_presets, options_of, plain_text, plain_words_of, preset_bytes, preset_of, preset_text, row_of, rule_of, verb_of, verbs};

/// A command.
#[derive(Clone, Copy, Debug, PartialEq, Eq)]
pub enum Verb {
    Create,
    Fix,
    Verify,
    Scan,
    Read,
    Demo,
}

/// An option.
#[derive(Clone, Copy)]
pub enum OptionWord {
    /// The parity bytes of a codeword.
    Parity,
    /// How many threads work.
    Workers,
    /// What stands behind the image is cut off.
    Cut,
    /// The name of a drive.
    Drive,
    /// The largest unread stretch is halved, where linear reading goes on in order.
    Adaptive,
    /// How many sectors linear reading goes on after a failed one.
    Jump,
    /// How often a sector is asked for.
    Tries,
}

/// What a word stands for that is no option.
#[derive(Clone, Copy)]
pub enum Kind {
    /// The name of a file. It differs from every other name.
    Name,
    /// The name of a drive. Two drives may have the same name.
    Drive,
    /// A number from `low` to `high`.
    Number { low: u64, high: u64 },
    /// A number of parity bytes from `low` to `high`, or the name of a preset.
    Parity { low: u64, high: u64 },
}

/// What a plain word is called where its command is explained.
#[derive(Clone, Copy)]
pub enum PlainName {
    /// The image.
    Image,
    /// Its error correction file.
    Ecc,
    /// What the image of `demo` is made from.
    Number,
    /// How many sectors `demo` makes.
    Sectors,
    /// The parity bytes of a codeword.
    Parity,
    /// How many sectors `demo` loses.
    Lost,
}

/// A number of parity bytes that has a name.
#[derive(Clone, Copy)]
pub enum Preset {
    Normal,
    High,
}

/// What the grammar says of a plain word.
#[derive(Clone, Copy)]
pub struct PlainWord {
    pub name: PlainName,
    pub kind: Kind,
    /// Whether the word must be there. Those that may be left out are a command's last ones.
    pub needed: bool,
}

/// What the grammar says of an option beside its word.
#[derive(Clone, Copy)]
pub struct OptionRule {
    /// What its value is. None where it takes no value.
    pub value: Option<Kind>,
    /// How often it may be given.
    pub most: usize,
    /// The number that holds where the option isn't given.
    pub default: u64,
}

/// The most drives that a command takes.
pub const MOST_DRIVES: usize = 16;

/// How many parity bytes a codeword may have.
pub const PARITY_BYTES: Kind = Kind::Parity { low: 8, high: 100 };

/// How many threads may work.
pub const THREADS: Kind = Kind::Number { low: 1, high: 32 };

/// How many sectors linear reading may go on after a failed one.
pub const JUMP_LENGTHS: Kind = Kind::Number {
    low: 1,
    high: 1_048_576,
};

/// How often a sector may be asked for.
pub const ASKS: Kind = Kind::Number { low: 1, high: 16 };

/// The numbers from which `demo` makes an image.
pub const SEEDS: Kind = Kind::Number {
    low: 0,
    high: u64::MAX,
};

/// How many sectors `demo` may make.
pub const MADE_SECTORS: Kind = Kind::Number {
    low: 1,
    high: 65_536,
};

/// How many sectors `demo` may lose.
pub const LOST_SECTORS: Kind = Kind::Number {
    low: 0,
    high: 65_536,
};

// The name of an image that must be there.
const IMAGE: PlainWord = PlainWord {
    name: PlainName::Image,
    kind: Kind::Name,
    needed: true,
};

// The name of an error correction file that must be there.
const ECC: PlainWord = PlainWord {
    name: PlainName::Ecc,
    kind: Kind::Name,
    needed: true,
};

// The name of an error correction file that may be left out.
const ECC_IF_ANY: PlainWord = PlainWord {
    name: PlainName::Ecc,
    kind: Kind::Name,
    needed: false,
};

/// The numbers of parity bytes that have names.
pub fn presets() -> &'static [Preset]
    ensures { result.now ≡ named_presets }
{
    &[Preset::Normal, Preset::High]
}

/// How a preset is written.
pub fn preset_text(preset: Preset) -> &'static str
    ensures { result.now ≡ preset_text preset }
{
    match preset {
        Preset::Normal => "normal",
        Preset::High => "high",
    }
}

/// The parity bytes of a preset.
pub fn preset_bytes(preset: Preset) -> u64
    ensures { result ≡ preset_bytes preset }
{
    match preset {
        Preset::Normal => 32,
        Preset::High => 64,
    }
}

/// The number of the preset that a word names.
pub fn preset_of(word: &str) -> Option<u64>
    ensures { result ≡ preset_of word.now }
{
    match word {
        "normal" => Some(32),
        "high" => Some(64),
        _ => None,
    }
}

/// The commands, in the table's order.
pub fn verbs() -> &'static [Verb]
    ensures { result.now ≡ verbs }
{
    &[
        Verb::Create,
        Verb::Fix,
        Verb::Verify,
        Verb::Scan,
        Verb::Read,
        Verb::Demo,
    ]
}

/// How a command is written.
pub fn name_of(verb: Verb) -> &'static str
    ensures { result.now ≡ name_of verb }
{
    match verb {
        Verb::Create => "create",
        Verb::Fix => "fix",
        Verb::Verify => "verify",
        Verb::Scan => "scan",
        Verb::Read => "read",
        Verb::Demo => "demo",
    }
}

/// The command that a word names.
pub fn verb_of(word: &str) -> Option<Verb>
    ensures { result ≡ verb_of word.now }
{
    match word {
        "create" => Some(Verb::Create),
        "fix" => Some(Verb::Fix),
        "verify" => Some(Verb::Verify),
        "scan" => Some(Verb::Scan),
        "read" => Some(Verb::Read),
        "demo" => Some(Verb::Demo),
        _ => None,
    }
}

/// What a plain word is called.
pub fn plain_text(name: PlainName) -> &'static str
    ensures { result.now ≡ plain_text name }
{
    match name {
        PlainName::Image => "IMAGE",
        PlainName::Ecc => "ECC",
        PlainName::Number => "NUMBER",
        PlainName::Sectors => "SECTORS",
        PlainName::Parity => "PARITY",
        PlainName::Lost => "LOST",
    }
}

/// The plain words of a command, in their order.
pub fn plain_words_of(verb: Verb) -> &'static [PlainWord]
    ensures { result.now ≡ plain_words_of verb }
{
    match verb {
        Verb::Create | Verb::Fix | Verb::Verify => &[IMAGE, ECC],
        Verb::Scan => &[ECC_IF_ANY],
        Verb::Read => &[IMAGE, ECC_IF_ANY],
        Verb::Demo => &[
            PlainWord {
                name: PlainName::Number,
                kind: SEEDS,
                needed: true,
            },
            PlainWord {
                name: PlainName::Sectors,
                kind: MADE_SECTORS,
                needed: true,
            },
            PlainWord {
                name: PlainName::Parity,
                kind: PARITY_BYTES,
                needed: true,
            },
            PlainWord {
                name: PlainName::Lost,
                kind: LOST_SECTORS,
                needed: true,
            },
        ],
    }
}

/// The options of a command.
pub fn options_of(verb: Verb) -> &'static [OptionWord]
    ensures { result.now ≡ options_of verb }
{
    match verb {
        Verb::Create => &[OptionWord::Parity, OptionWord::Workers],
        Verb::Fix => &[OptionWord::Workers, OptionWord::Cut],
        Verb::Verify | Verb::Demo => &[],
        Verb::Scan => &[OptionWord::Drive],
        Verb::Read => &[
            OptionWord::Drive,
            OptionWord::Adaptive,
            OptionWord::Jump,
            OptionWord::Tries,
            OptionWord::Workers,
        ],
    }
}

/// How an option is written.
pub fn text_of(option: OptionWord) -> &'static str
    ensures { result.now ≡ (row_of option).text }
{
    match option {
        OptionWord::Parity => "--parity",
        OptionWord::Workers => "--workers",
        OptionWord::Cut => "--cut",
        OptionWord::Drive => "--drive",
        OptionWord::Adaptive => "--adaptive",
        OptionWord::Jump => "--jump",
        OptionWord::Tries => "--tries",
    }
}

/// What the value of an option is called. Empty where it takes no value.
pub fn value_name(option: OptionWord) -> &'static str
    ensures { result.now ≡ (row_of option).name }
{
    match option {
        OptionWord::Parity => "N",
        OptionWord::Workers => "W",
        OptionWord::Cut | OptionWord::Adaptive => "",
        OptionWord::Drive => "D",
        OptionWord::Jump => "J",
        OptionWord::Tries => "T",
    }
}

/// What the grammar says of an option beside its word.
pub fn rule_of(option: OptionWord) -> OptionRule
    ensures rule { result ≡ rule_of option }
    ensures some { 0 < result.most }
{
    match option {
        OptionWord::Parity => once(Some(PARITY_BYTES), 32),
        OptionWord::Workers => once(Some(THREADS), 2),
        OptionWord::Cut => once(None, 0),
        OptionWord::Drive => OptionRule {
            value: Some(Kind::Drive),
            most: MOST_DRIVES,
            default: 0,
        },
        OptionWord::Adaptive => once(None, 0),
        OptionWord::Jump => once(Some(JUMP_LENGTHS), 1),
        OptionWord::Tries => once(Some(ASKS), 1),
    }
}

// The rule of an option that may be given once.
fn once(value: Option<Kind>, default: u64) -> OptionRule
    ensures { result ≡ record { value = value; most = 1; default = default } }
{
    OptionRule {
        value,
        most: 1,
        default,
    }
}
