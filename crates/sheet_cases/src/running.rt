// Cases of runs of a statement's steps.
use crate::hex::sheet_and_rest;
use sheet::Statement;
use std::io::Write;

// `SHEET : COUNTS`, a run for each count of steps, all into one output that is printed at the end
pub fn print_runs(rt: &HostRuntime, text: &str) -> anyhow::Result<()> {
    println!(rt; "runs {text}")?;
    let (sheet, counts) = sheet_and_rest(rt.alloc(), text)?;
    let mut statement = Statement::new(&sheet);
    let mut lines = Vec::new(rt.alloc());
    for count in counts.split_whitespace() {
        let over = statement.run(&mut lines, count.parse::<usize>()?)?;
        let length = lines.len();
        println!(rt; "most {count} -> over {over}, {length} bytes in all")?;
    }
    rt.stdout().write_all(&lines)?;
    Ok(())
}
