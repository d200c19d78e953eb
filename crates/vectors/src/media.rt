// Stores on which a volume can be made, and stores on which it cannot.
use crate::session::flat;
use model::types::{Cause, Fault, Refusal};
use std::test::Fail;
use store::spares::{Spare, Spares};
use store::window::Window;
use volume::format::format;
use volume::opening::inspect;
use volume::sectors::FILES;
use volume::types::Volume;

fn dead_at(depth: u8) -> Result<(), Refusal> {
    Err(Refusal::Dead(Fault {
        cause: Cause::Dead,
        place: FILES,
        depth,
    }))
}

#[test]
fn stores_that_are_too_small(rt: HostRuntime) -> Result<(), Fail> {
    for (sectors, answer) in [(259, Err(Refusal::Small)), (260, Ok(())), (261, Ok(()))] {
        let mut chip = flat(rt.alloc(), sectors, None)?;
        assert_eq!(rt; format(&mut chip), answer);
        assert_eq!(rt; inspect(&mut chip), answer);
    }
    Ok(())
}

// The table of files is dead; a window shows that one layer up, and a spare mends it.
#[test]
fn a_dead_table(rt: HostRuntime) -> Result<(), Fail> {
    let mut chip = flat(rt.alloc(), 261, Some(FILES))?;
    assert_eq!(rt; format(&mut chip), dead_at(0));
    assert_eq!(rt; inspect(&mut chip), dead_at(0));
    let mut window = Window::lay(chip, 0, 260);
    assert_eq!(rt; format(&mut window), dead_at(1));
    let volume = Volume::open(window);
    let shut = volume.is_shut();
    let found = volume.find(0xff, b"");
    let _ = volume.close();
    assert!(rt; shut);
    assert_eq!(rt; found, Err(Refusal::Shut));
    let chip = flat(rt.alloc(), 261, Some(FILES))?;
    let pairs = vec![in rt.alloc();
        Spare {
            sector: FILES,
            spare: 260
        },
    ]?;
    let mut spares = Spares::lay(chip, 260, pairs);
    assert_eq!(rt; format(&mut spares), Ok(()));
    assert_eq!(rt; inspect(&mut spares), Ok(()));
    Ok(())
}
