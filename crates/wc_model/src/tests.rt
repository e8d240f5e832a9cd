use super::*;
use std::test::Fail;

fn shares<T: Sync>() {}

#[test]
fn an_image_may_be_shared(_rt: HostRuntime) -> Result<(), Fail> {
    shares::<Image>();
    Ok(())
}

#[test]
fn a_table_grows_and_loses_an_item_in_its_place(rt: HostRuntime) -> Result<(), Fail> {
    let mut table = Table::new(Vec::new(rt.alloc()));
    for item in 1u32..5 {
        table.push(item)?;
    }
    assert_eq!(rt; table.items(), [1, 2, 3, 4].as_slice());
    if 1 < table.items().len() {
        assert_eq!(rt; table.remove(1), 2);
    }
    assert_eq!(rt; table.items(), [1, 3, 4].as_slice());
    Ok(())
}
