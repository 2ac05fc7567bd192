ghost use Rattle.std.specs.Prelude.{◌≡◌, ◌==◌};
ghost use Rattle.std.specs.Str.{bytes_eq};
ghost use Rattle.cq_base.specs.Measures.{measure_of, no_measures};
ghost use Rattle.cq_base.specs.Tables.{metric_code, metric_name, metrics, metric_coded, metric_named, with_code, with_name};

/// What is measured of a project.
#[derive(Clone, Copy, Debug, PartialEq, Eq)]
pub enum Metric {
    Lines,
    /// Lines with a token that is no comment.
    Ncloc,
    Files,
    /// Cyclomatic complexity.
    Complexity,
    DupLines,
    DupBlocks,
    DupFiles,
    /// The share of lines that are duplicated.
    Density,
}

const METRICS: [Metric; 8] = [
    Metric::Complexity,
    Metric::DupBlocks,
    Metric::DupFiles,
    Metric::DupLines,
    Metric::Density,
    Metric::Files,
    Metric::Lines,
    Metric::Ncloc,
];

// The first with this code.
fn first_coded(metrics: &[Metric], code: u8) -> Option<Metric>
    ensures { result ≡ with_code metric_code metrics.now code }
{
    for metric in metrics {
        if metric.has_code(code) {
            return Some(*metric);
        }
    }
    None
}

// The first with this name.
fn first_named(metrics: &[Metric], name: &str) -> Option<Metric>
    ensures { result ≡ with_name metric_name metrics.now name.now }
{
    for metric in metrics {
        if metric.has_name(name) {
            return Some(*metric);
        }
    }
    None
}

impl Metric {
    /// All metrics, in the order of their names, as replies list them.
    pub fn all() -> &'static [Metric]
        ensures { result.now ≡ metrics }
    {
        &METRICS
    }

    /// Its number in token files.
    pub fn code(&self) -> u8
        ensures { result ≡ metric_code self.now }
    {
        match self {
            Metric::Lines => 0,
            Metric::Ncloc => 1,
            Metric::Files => 2,
            Metric::Complexity => 3,
            Metric::DupLines => 4,
            Metric::DupBlocks => 5,
            Metric::DupFiles => 6,
            Metric::Density => 7,
        }
    }

    /// SonarQube's metric key, its name in requests and replies.
    pub fn name(&self) -> &'static str
        ensures { result.now ≡ metric_name self.now }
    {
        match self {
            Metric::Lines => "lines",
            Metric::Ncloc => "ncloc",
            Metric::Files => "files",
            Metric::Complexity => "complexity",
            Metric::DupLines => "duplicated_lines",
            Metric::DupBlocks => "duplicated_blocks",
            Metric::DupFiles => "duplicated_files",
            Metric::Density => "duplicated_lines_density",
        }
    }

    fn has_code(&self, code: u8) -> bool
        ensures { result ≡ (metric_code self.now == code) }
    {
        self.code() == code
    }

    fn has_name(&self, name: &str) -> bool
        ensures { result ≡ bytes_eq (metric_name self.now) name.now }
    {
        self.name() == name
    }

    /// The metric with this code.
    pub fn of_code(code: u8) -> Option<Metric>
        ensures { result ≡ metric_coded code }
    {
        first_coded(Metric::all(), code)
    }

    /// The metric with this name.
    pub fn named(name: &str) -> Option<Metric>
        ensures { result ≡ metric_named name.now }
    {
        first_named(Metric::all(), name)
    }
}

/// What is counted in one file, whatever the others have.
#[derive(Clone, Copy, Debug, PartialEq, Eq)]
pub struct FileCounts {
    /// Lines of its text.
    pub lines: u64,
    /// Lines with a token that is not a comment; 0 if the file contributes no tokens.
    pub ncloc: u64,
    /// 1 plus its decisions; 0 if the file contributes no tokens.
    pub complexity: u64,
}

/// The measures of a project, or of one file of it: one number for each metric.
#[derive(Clone, Copy, Debug, PartialEq, Eq)]
pub struct Measures {
    pub lines: u64,
    pub ncloc: u64,
    pub files: u64,
    pub complexity: u64,
    pub dup_lines: u64,
    pub dup_blocks: u64,
    pub dup_files: u64,
    /// Duplicated lines of all lines, in hundredths of a percent, rounded down.
    pub density: u64,
}

impl Measures {
    /// The measures of no file, all of them 0.
    pub fn none() -> Measures
        ensures { result ≡ no_measures }
    {
        Measures {
            lines: 0,
            ncloc: 0,
            files: 0,
            complexity: 0,
            dup_lines: 0,
            dup_blocks: 0,
            dup_files: 0,
            density: 0,
        }
    }

    /// The number of a metric.
    pub fn get(&self, metric: Metric) -> u64
        ensures { result ≡ measure_of metric self.now }
    {
        match metric {
            Metric::Lines => self.lines,
            Metric::Ncloc => self.ncloc,
            Metric::Files => self.files,
            Metric::Complexity => self.complexity,
            Metric::DupLines => self.dup_lines,
            Metric::DupBlocks => self.dup_blocks,
            Metric::DupFiles => self.dup_files,
            Metric::Density => self.density,
        }
    }
}
