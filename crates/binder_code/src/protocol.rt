/// Which of the two protocols of `linux/android/binder.h` a code belongs to.
#[derive(Clone, Copy)]
pub enum Protocol {
    /// `binder_driver_command_protocol`: the `BC_` codes, in write frames.
    Command,
    /// `binder_driver_return_protocol`: the `BR_` codes, in read frames.
    Return,
}
