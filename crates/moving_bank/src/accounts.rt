//! The part of an account: what came in and what went out. It takes no memory.
use squeue::{Errand, Parts};
use std::alloc::{AllocError, Global};

/// So much goes from one account to another. Its thread makes two calls for it: one takes the amount out, the next brings it in.
#[derive(Clone, Copy)]
pub struct Transfer {
    pub from: u32,
    pub to: u32,
    pub amount: u32,
}

/// The deposits of each account, and the transfers of each thread.
#[derive(Clone, Copy)]
pub struct Bank<'a> {
    pub(crate) deposits: &'a [Vec<u32>],
    pub(crate) transfers: &'a [Vec<Transfer>],
}

/// What came into an account, and what went out.
#[derive(Clone, Copy, Default)]
pub struct Statement {
    pub credit: u64,
    pub debit: u64,
}

/// How many deposits there were, and the sums so far. One that would be greater than 64 bits hold stays at the greatest.
#[derive(Drop)]
pub struct Account<'a> {
    bank: Bank<'a>,
    number: u32,
    had: u64,
    pub(crate) sums: Statement,
}

impl Errand for Transfer {
    ghost use Rattle.moving_bank.specs.Booking.{both_of};

    ghost called = { both_of };

    fn add_to(&self, calls: &mut Vec<u32>) -> Result<(), AllocError> {
        calls.extend_from_slice(&[self.from, self.to])
    }
}

impl<'a> Parts for Bank<'a> {
    ghost use Rattle.moving_bank.specs.Booking.{HasBooked, IsPartOf, limits_of};
    ghost use Rattle.std.proofs.Common.{sym, ◌∙◌};

    type Part = Account<'a>;

    type Origin = Bank<'a>;

    ghost part_stands = { HasBooked };

    ghost limits = { limits_of };

    ghost origin = { λ bank. bank };

    ghost is_part_of = { IsPartOf };

    fn fresh(&self, _alloc: Global, c: u32) -> Result<Account<'a>, AllocError> {
        Ok(Account {
            bank: *self,
            number: c,
            had: 0,
            sums: Statement::default(),
        })
    }

    fn feed(&self, _alloc: Global, account: &mut Account<'a>, c: u32, n: u32) {
        let amount = self.deposits[c as usize][n as usize];
        account.had += 1;
        account.sums.credit = account.sums.credit.saturating_add(u64::from(amount));
    }

    fn call(&self, _alloc: Global, account: &mut Account<'a>, _c: u32, j: u32, k: u32) {
        let amount = self.transfers[j as usize][k as usize / 2].amount;
        if k % 2 == 0 {
            account.sums.debit = account.sums.debit.saturating_add(u64::from(amount));
        } else {
            account.sums.credit = account.sums.credit.saturating_add(u64::from(amount));
        }
    }

    ghost same_count = { λ k a b x y. x.feeds ∙ sym y.feeds };
}
