mod fake;

use crate::line::Line;
use kom_base::Comp;
use kom_record::Wakes;
use std::process::Abort;
use std::test::Fail;

#[test]
fn who_comes_again_goes_to_the_end(rt: HostRuntime) -> Result<(), Fail> {
    let mut line = Line::new(rt.alloc());
    line.push(Comp(3))?;
    line.push(Comp(5))?;
    let mut wakes = Wakes::new(rt.alloc());
    wakes.push(Comp(3))?;
    line.push_all(&wakes)?;
    assert_eq!(rt; line.pop(), Some(Comp(5)));
    assert_eq!(rt; line.pop(), Some(Comp(3)));
    assert_eq!(rt; line.pop(), None);
    Ok(())
}
