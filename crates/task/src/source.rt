ghost use Rattle.std.specs.Prelude.{◌≡◌, ◌↔◌};
ghost use Rattle.model.specs.Tasks.{Task, Lawful, Alike, below};

// What answers for a planning task. Variables and operators are numbered from 0. A question about a number that is out of range has no
// answer, and no question changes the task.
pub trait TaskSource {
    ghost task: { Self → Task };

    // How many variables there are, 1 to 32.
    fn variables(&self) -> usize
        ensures { result ≡ (task self.now).n };

    // How many values the variable v has, 1 to 64.
    fn size(&self, v: usize) -> Option<u16>
        ensures { result ≡ below v (task self.now).n ((task self.now).size v) };

    // How many operators there are, at most 1,024.
    fn operators(&self) -> usize
        ensures { result ≡ (task self.now).m };

    // The value of v that the operator o needs.
    fn needed(&self, o: usize, v: usize) -> Option<u16>
        ensures { result ≡ (task self.now).needed o v };

    // The value of v that the operator o makes.
    fn made(&self, o: usize, v: usize) -> Option<u16>
        ensures { result ≡ (task self.now).made o v };

    // The value of v in the start position.
    fn start(&self, v: usize) -> Option<u16>
        ensures { result ≡ below v (task self.now).n ((task self.now).start v) };

    // The value of v that the goal wants.
    fn goal(&self, v: usize) -> Option<u16>
        ensures { result ≡ (task self.now).goal v };

    // its task keeps all limits
    ghost lawful: { (s : Self) → Lawful (task s) };
}

// Two sources answer every question alike exactly when they mean one task.
pub fn answers_tell_the_task<A: TaskSource, B: TaskSource>(a: &A, b: &B)
    ensures { Alike (A.TaskSource.task a.now) (B.TaskSource.task b.now) ↔ (A.TaskSource.task a.now ≡ B.TaskSource.task b.now) }
{}
