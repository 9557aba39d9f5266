//! The jobs of the program.
ghost use Rattle.std.specs.Prelude.{◌≡◌, option_map};
ghost use Rattle.inrc2pb_program.specs.Jobs.{IsChoiceOf, output_path_of};

use rota_pb::Choice;

/// The inputs of every job: a scenario, the history before the week, the week's data and, if one is named,
/// the file of the held cells; and whether excess is charged early.
pub struct Inputs {
    pub sce: String,
    pub his: String,
    pub week: String,
    pub fix: Option<String>,
    pub early: bool,
}

impl Drop for Inputs {
    fn drop(self) {
        let Inputs {
            sce: _,
            his: _,
            week: _,
            fix: _,
            early: _,
        } = self;
    }
}

impl Inputs {
    /// The choices for a run, in addition to its files.
    pub fn choice(&self) -> Choice
        ensures { IsChoiceOf self.now result }
    {
        Choice {
            early: self.early,
            fixed: self.fix.is_some(),
        }
    }
}

/// A job of the program, with the paths as they were given.
pub enum Job {
    /// Write the model of the week, to standard output if no file is named for it.
    Encode {
        inputs: Inputs,
        opb: Option<String>,
    },
    /// Write the solution file `sol` of a solver's answer, and a report to standard output. The answer is
    /// read from standard input if no file is named for it.
    Decode {
        inputs: Inputs,
        sol: String,
        answer: Option<String>,
    },
    /// Write to standard output the answer that a solver could give for the roster in the file `from`.
    Extend {
        inputs: Inputs,
        from: String,
    },
}

impl Drop for Job {
    fn drop(self) {
        match self {
            Job::Encode { inputs: _, opb: _ } => (),
            Job::Decode {
                inputs: _,
                sol: _,
                answer: _,
            } => (),
            Job::Extend { inputs: _, from: _ } => (),
        }
    }
}

impl Job {
    /// The path of the file that the job writes, if it writes one.
    pub fn output_path(&self) -> Option<&str>
        ensures { option_map (λ path. path.now) result ≡ output_path_of self.now }
    {
        match self {
            Job::Encode { opb, .. } => opb.as_ref().map(|path| path.as_str()),
            Job::Decode { sol, .. } => Some(sol.as_str()),
            Job::Extend { .. } => None,
        }
    }
}
