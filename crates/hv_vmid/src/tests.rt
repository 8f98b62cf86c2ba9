//! Numbers that are given, asked for again and dropped.

ghost use Rattle.std.specs.Prelude.{◌≡◌, ◌≤◌, length, IfOk};
ghost use Rattle.hv_limits.specs.Limits.{depth_limit};
ghost use Rattle.hv_vmid.specs.Paths.{IsNumber};

use super::*;
use hv_limits::DEPTH;
use hv_map::Path;
use std::test::Fail;

fn path(syllables: &[u32]) -> Path
    requires { length syllables.now ≤ depth_limit }
{
    let mut path = Path::new();
    for syllable in syllables {
        path.push(*syllable);
    }
    path
}

// Gives a number to each machine on a path, and returns that of the last.
fn number_all(ids: &mut Ids, syllables: &[u32]) -> Result<Option<u32>, IdEnd>
    requires { length syllables.now ≤ depth_limit }
    ensures { IfOk result (IsNumber (length ids.new)) }
{
    let mut id = None;
    for syllable in syllables {
        id = Some(ids.child_id(id, *syllable)?);
    }
    Ok(id)
}

#[test]
fn a_path_has_one_number(rt: HostRuntime) -> Result<(), Fail> {
    let mut ids = Ids::new(rt.alloc());
    assert_eq!(rt; ids.child_id(None, 1), Ok(0));
    assert_eq!(rt; ids.child_id(None, 1), Ok(0));
    assert_eq!(rt; ids.child_id(None, 7), Ok(1));
    assert_eq!(rt; ids.child_id(None, 1), Ok(0));
    Ok(())
}

#[test]
fn a_number_gives_its_path_back(rt: HostRuntime) -> Result<(), Fail> {
    let mut ids = Ids::new(rt.alloc());
    let Ok(outer) = ids.child_id(None, 1) else {
        return Err("no number")?;
    };
    assert_eq!(rt; ids.path_of(outer).as_slice(), [1].as_slice());
    Ok(())
}

#[test]
fn children_of_one_parent_differ(rt: HostRuntime) -> Result<(), Fail> {
    let mut ids = Ids::new(rt.alloc());
    assert_eq!(rt; number_all(&mut ids, &[1, 2]), Ok(Some(1)));
    assert_eq!(rt; number_all(&mut ids, &[1, 3]), Ok(Some(2)));
    assert_eq!(rt; number_all(&mut ids, &[2]), Ok(Some(3)));
    assert_eq!(rt; number_all(&mut ids, &[1, 2]), Ok(Some(1)));
    assert_eq!(rt; ids.find(&path(&[1])), Some(0));
    assert_eq!(rt; ids.find(&path(&[1, 3])), Some(2));
    assert_eq!(rt; ids.find(&path(&[2])), Some(3));
    assert_eq!(rt; ids.find(&path(&[2, 3])), None);
    assert_eq!(rt; ids.find(&path(&[])), None);
    Ok(())
}

#[test]
fn the_deepest_path_has_a_number(rt: HostRuntime) -> Result<(), Fail> {
    let mut ids = Ids::new(rt.alloc());
    let deepest = [5; DEPTH];
    let Ok(Some(last)) = number_all(&mut ids, &deepest) else {
        return Err("no number")?;
    };
    assert_eq!(rt; last as usize, DEPTH - 1);
    assert_eq!(rt; ids.path_of(last).as_slice(), deepest.as_slice());
    assert_eq!(rt; ids.find(&path(&deepest)), Some(last));
    Ok(())
}

#[test]
fn dropped_paths_have_no_numbers(rt: HostRuntime) -> Result<(), Fail> {
    let mut ids = Ids::new(rt.alloc());
    assert_eq!(rt; number_all(&mut ids, &[1, 2]), Ok(Some(1)));
    ids.drop_all();
    assert_eq!(rt; ids.find(&path(&[1])), None);
    assert_eq!(rt; number_all(&mut ids, &[2]), Ok(Some(0)));
    assert_eq!(rt; ids.find(&path(&[2])), Some(0));
    Ok(())
}

#[test]
fn a_new_path_is_refused_where_all_numbers_are_given(rt: HostRuntime) -> Result<(), Fail> {
    let mut ids = Ids::new(rt.alloc());
    for syllable in 0..IDS as u32 {
        assert_eq!(rt; ids.child_id(None, syllable), Ok(syllable));
    }
    assert_eq!(rt; ids.child_id(None, IDS as u32), Err(IdEnd::Full));
    assert_eq!(rt; ids.child_id(None, 5), Ok(5));
    assert_eq!(rt; ids.find(&path(&[IDS as u32 - 1])), Some(IDS as u32 - 1));
    assert_eq!(rt; ids.find(&path(&[IDS as u32])), None);
    Ok(())
}
