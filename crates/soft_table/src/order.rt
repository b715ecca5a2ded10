//! The order of the rows of a table.
use crate::fact::Fact;
use crate::rest_order::RestOrder;
use std::cmp::Ordering;
use std::marker::PhantomData;

/// The rests of the keys of facts, in their order.
pub(crate) struct Rests<F> {
    of: PhantomData<F>,
}

impl<F: Fact> RestOrder for Rests<F> {
    type Rest = F::Rest;

    ghost rests = { F.rests };

    #[inline(always)]
    fn order(a: &F::Rest, b: &F::Rest) -> Ordering {
        F::order(a, b)
    }
}
