//! What the words of a command line ask for.

ghost use Rattle.std.specs.Prelude.{◌≡◌};
ghost use Rattle.talk.specs.Named.{job_seen, number_in};
ghost use Rattle.talk.specs.Plain.{named, plain};
ghost use Rattle.talk.specs.Words as spec;

/// A job, a variant for each command: the values of its options, or their defaults, and its files.
#[derive(Clone, Copy)]
pub enum Job<'a> {
    /// `sim`: the lag in cycles, the name of the top module, where one is set, and the file words.
    Sim {
        lag: u32,
        top: Option<&'a [u8]>,
        files: &'a [&'a str],
    },
}

impl<'a> Job<'a> {
    /// How many cycles before the failure its window begins.
    pub fn lag(&self) -> u32
        ensures { result ≡ spec.lag_of (job_seen self.now) }
    {
        match self {
            Job::Sim { lag, .. } => *lag,
        }
    }

    /// The name of the top module, where one is set.
    pub fn top(&self) -> Option<&'a [u8]>
        ensures { plain result ≡ spec.top_of (job_seen self.now) }
    {
        match self {
            Job::Sim { top, .. } => *top,
        }
    }

    /// Its files.
    pub fn files(&self) -> &'a [&'a str]
        ensures { named result.now ≡ spec.files_of (job_seen self.now) }
    {
        match self {
            Job::Sim { files, .. } => *files,
        }
    }
}

/// Why words ask for nothing.
#[derive(Clone, Copy, PartialEq, Eq, Debug, Drop)]
pub enum Usage {
    /// The word of this number, from 1, is the first that no allowed line has in this place after the words before
    /// it. Where a word is missing, it is the number of words plus 1.
    Word { number: u32 },
}

impl Usage {
    /// The number of the first bad word.
    pub fn number(self) -> u32
        ensures { result ≡ number_in self }
    {
        match self {
            Usage::Word { number } => number,
        }
    }
}
