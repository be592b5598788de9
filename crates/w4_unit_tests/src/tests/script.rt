//! What no clause says: that each call that reads lines gives its answer where there is enough memory. And
//! the greatest length of a script, of which no case has a file.

use std::test::Fail;
use std::vec::Vec;
use w4_defs::inspect::{Ask, QueryLine};
use w4_defs::netplay::NetOrder;
use w4_script::{
    Order, ScriptRefusal, read_log, read_names, read_query, read_script, script_lines,
};

#[test]
fn each_kind_of_file_is_read(rt: HostRuntime) -> Result<(), Fail> {
    let orders = read_script(rt.alloc(), b"undo\nshow 1")?;
    let undo_and_show = [Order::Undo, Order::Show { p: 1 }];
    assert!(rt; orders.as_slice() == undo_and_show.as_slice());
    let log = read_log(rt.alloc(), b"next")?;
    assert!(rt; log.as_slice() == [NetOrder::Next].as_slice());
    let query = read_query(rt.alloc(), b"list")?;
    let list = QueryLine::Ask { ask: Ask::List };
    assert!(rt; query.as_slice() == [list].as_slice());
    let names = read_names(rt.alloc(), b"a\n")?;
    assert!(rt; names.len() == 1 && names[0].as_str() == "a");
    let lines = script_lines(rt.alloc(), b"film 3 2 1")?;
    assert!(rt; lines.len() == 1 && lines[0].words.len() == 4);
    Ok(())
}

#[test]
fn longest_script_is_read(rt: HostRuntime) -> Result<(), Fail> {
    let mut spaces = Vec::new(rt.alloc());
    spaces.resize(1_048_576, b' ')?;
    assert_eq!(rt; read_script(rt.alloc(), &spaces)?.len(), 0);
    spaces.push(b' ')?;
    assert_eq!(rt;
        read_script(rt.alloc(), &spaces).err(),
        Some(ScriptRefusal::TooLong)
    );
    Ok(())
}
