//! A line that makes no sense ends a script there, by its number.

use script::read_script;
use std::test::Fail;

#[test]
fn ends_the_script(rt: HostRuntime) -> Result<(), Fail> {
    let script = read_script(rt.alloc(), "# a comment\nattach\nread10 one\ndetach\n")?;
    assert_eq!(rt; script.lines.len(), 1);
    let stop = script.bad.ok_or("every line made sense")?;
    assert_eq!(rt; stop.line, 3);
    Ok(())
}
