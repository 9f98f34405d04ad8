// The calls of a register.
ghost use Rattle.std.specs.Prelude.{◌≡◌, [], MatchResult};
ghost use Rattle.shelves.specs.Filing.{opened};
ghost use Rattle.shelves.specs.declared.verdict.Verdict.TheVariants.{Open};
ghost use Rattle.register.specs.States.{state_of, memory_of, Opens, SameMemory};

use crate::register::Register;
use checks::fault::RegisterFault;
use checks::room::Memory;
use checks::same::Variables;
use records::shelf::Shelf;
use shelves::verdict::Verdict;
use task::moves::MAX_VARIABLES;
use task::source::TaskSource;

impl<'r, 'p> Register<'r, 'p> {
    // A register that holds this memory, and was not opened yet.
    pub fn new(records: &'r mut [Shelf], pool: &'p mut [u8]) -> Register<'r, 'p>
        ensures empty { (result.variables.n ≡ 0) × ((state_of result).shelves ≡ []) × (result.verdict ≡ Open) }
        ensures records { result.records.now ≡ records.old }
        ensures pool { result.pool.now ≡ pool.old }
    {
        Register {
            records,
            pool,
            count: 0,
            top: 0,
            variables: Variables {
                n: 0,
                sizes: [1; MAX_VARIABLES],
            },
            verdict: Verdict::Open,
        }
    }
}

impl Register<'_, '_> {
    // How much memory it holds.
    fn memory(&self) -> Memory
        ensures { result ≡ memory_of self.now }
    {
        Memory {
            records: self.records.len(),
            pool: self.pool.len(),
        }
    }

    // Starts anew on this task: with no shelf, and the verdict open. It writes none of the memory.
    pub fn open<S: TaskSource>(&mut self, source: &S) -> Result<(), RegisterFault>
        ensures opens { Opens (S.TaskSource.task source.now) (memory_of self.old) (state_of self.old) result (state_of self.new) }
        ensures memory { MatchResult result (λ _. SameMemory self.old self.new) (λ _. self.new ≡ self.old) }
    {
        self.memory().check()?;
        self.start(source);
        Ok(())
    }

    fn start<S: TaskSource>(&mut self, source: &S)
        ensures state { state_of self.new ≡ opened (S.TaskSource.task source.now) }
        ensures memory { SameMemory self.old self.new }
    {
        self.count = 0;
        self.top = 0;
        self.verdict = Verdict::Open;
        self.variables = Variables::of(source);
    }

    pub fn verdict(&self) -> Verdict
        ensures { result ≡ (state_of self.now).verdict }
    {
        self.verdict
    }
}
