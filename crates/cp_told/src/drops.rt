// What is let go, each in a function of its own.
use cp_call::{Input, Reply};
use cp_io::Bytes;
use cp_request::Asking;
use cp_term::{PredName, Term};

pub(crate) fn drop_asking(_asking: Asking) {}

pub(crate) fn drop_bytes(_bytes: Bytes) {}

pub(crate) fn drop_input(_input: Input) {}

pub(crate) fn drop_pred(_pred: PredName) {}

pub(crate) fn drop_term(_term: Term) {}
