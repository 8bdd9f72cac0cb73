// Reading a job from bytes, and writing it.
ghost use Rattle.std.specs.Prelude.{◌≡◌, ◌/◌, length, IfOk};
ghost use Rattle.jobfile.specs.Jobs.{read_job, job_in, job_bytes, WriteThenRead};
ghost use Rattle.jobfile.specs.Held.{held, held_in, setup_of};

use crate::bytes::{push_words, words_of};
use crate::order::Job;
use crate::scheme::Scheme;
use crate::setting::Setting;
use pickcore::setup::Setup;
use std::alloc::{AllocError, Global};

// The job that some bytes hold, if they hold one.
#[tactic(auto, using(crate::proofs::There::length_words))]
pub fn read_job(alloc: Global, bytes: &[u8]) -> Result<Option<Job>, AllocError>
    ensures { IfOk result (λ o. held_in o ≡ read_job bytes.now) }
{
    let words = words_of(alloc, bytes)?;
    job_in(alloc, bytes.len(), words.as_slice())
}

// The job that the words of so many bytes hold: scheme, delays, capacity, the lengths of program and data, cycles, and
// then program and data.
fn job_in(alloc: Global, many: usize, words: &[u32]) -> Result<Option<Job>, AllocError>
    requires { length words.now ≡ many / 4 }
    ensures { IfOk result (λ o. held_in o ≡ job_in many words.now) }
{
    let [
        scheme,
        short,
        multiply,
        divide,
        memory,
        capacity,
        program_length,
        data_length,
        cycles,
        rest @ ..,
    ] = words
    else {
        return Ok(None);
    };
    let lengths = *program_length as usize + *data_length as usize;
    if many > 32804 || many != 36 + 4 * lengths || *cycles < 1 || *cycles > 1024 {
        return Ok(None);
    }
    let Ok(scheme) = Scheme::try_from(*scheme) else {
        return Ok(None);
    };
    let setting = Setting {
        scheme,
        delays: [*short, *multiply, *divide, *memory],
        capacity: *capacity,
    };
    let (program, data) = rest.split_at(*program_length as usize);
    Ok(Some(Job {
        setting,
        program: Vec::from_slice(alloc, program)?,
        words: Vec::from_slice(alloc, data)?,
        cycles: *cycles,
    }))
}

impl Job {
    // What a core is loaded with for the job.
    pub fn setup(&self) -> Setup
        ensures { result ≡ setup_of (held self.now) }
    {
        Setup::new(
            self.setting.delays,
            self.setting.capacity,
            self.program.as_slice(),
            self.words.as_slice(),
        )
    }

    // The bytes that hold the job.
    pub fn bytes(&self, alloc: Global) -> Result<Vec<u8>, AllocError>
        ensures { IfOk result (λ v. v.items ≡ job_bytes (held self.now)) }
    {
        let mut bytes = Vec::new(alloc);
        push_words(&mut bytes, &[u32::from(self.setting.scheme)])?;
        push_words(&mut bytes, &self.setting.delays)?;
        let program = self.program.len() as u32;
        let words = self.words.len() as u32;
        push_words(
            &mut bytes,
            &[self.setting.capacity, program, words, self.cycles],
        )?;
        push_words(&mut bytes, self.program.as_slice())?;
        push_words(&mut bytes, self.words.as_slice())?;
        Ok(bytes)
    }
}

// The bytes that are written for a job read back as that job.
pub fn jobs_round_trip()
    ensures { WriteThenRead }
{}
