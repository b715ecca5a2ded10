//! Command lines read with memory enough.
use command_run::{NoOrder, Order, read_order};
use std::test::Fail;

#[test]
fn words_are_orders(rt: HostRuntime) -> Result<(), Fail> {
    let alloc = rt.alloc();
    let table: [(&[&str], Result<Order, NoOrder>); 11] = [
        (&["replay"], Ok(Order::Replay)),
        (&["demand"], Ok(Order::Demand)),
        (&["show"], Ok(Order::Show)),
        (&["grow"], Ok(Order::Grow { seed: 1 })),
        (&["node"], Ok(Order::Node)),
        (&["police"], Ok(Order::Police)),
        (&["--seed=0", "grow"], Ok(Order::Grow { seed: 0 })),
        (&["grow", "--seed", "01"], Ok(Order::Grow { seed: 1 })),
        (&["show", "--seed", "1"], Err(NoOrder::Usage)),
        (&["node", "--seed", "1"], Err(NoOrder::Usage)),
        (&["--help"], Err(NoOrder::Usage)),
    ];
    for (list, want) in table {
        let mut words = Vec::new(alloc);
        for word in list {
            words.push(word.to_string(alloc)?)?;
        }
        assert_eq!(rt; read_order(alloc, words.as_slice()), want);
    }
    Ok(())
}
