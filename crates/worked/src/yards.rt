// Yards for the tests.
use facts::FactSet;
use std::test::Fail;
use strips::Task;

// Writes a byte where the file reaches that far.
pub fn put(file: &mut [u8], at: usize, byte: u8) {
    if at < file.len() {
        file[at] = byte;
    }
}

// The task of three lifts, as its bytes: goals 1 and 2 need fact 0, which action 2 adds.
pub fn three_lifts() -> [u8; 384] {
    let mut file = [0u8; 384];
    put(&mut file, 32, 0x06);
    put(&mut file, 64, 0x07);
    put(&mut file, 96, 0x01);
    put(&mut file, 128, 0x02);
    put(&mut file, 192, 0x01);
    put(&mut file, 224, 0x04);
    put(&mut file, 320, 0x01);
    file
}

pub fn task_of(rt: &HostRuntime, file: &[u8]) -> Result<Task, Fail> {
    let mut task = Task::new(rt.alloc())?;
    task.read(file)?;
    Ok(task)
}

// The set of some facts.
pub fn set_of(facts: &[u8]) -> FactSet {
    let mut set = FactSet::empty();
    for fact in facts {
        set.insert(*fact);
    }
    set
}
