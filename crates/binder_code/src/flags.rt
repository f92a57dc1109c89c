ghost use Rattle.std.specs.Prelude.{⊤, ◌≡◌, ◌+◌, ◌↔◌};
ghost use Rattle.std.specs.Int.RustNames.{bit_and};
ghost use Rattle.binder_code.specs.Flags.{flag_table, known_flags, unknown_of, bits_of};

use bitflags::{Flag, Flags, bitflag_items};

/// The flags of a transaction, `enum transaction_flags` of `linux/android/binder.h`.
#[derive(Clone, Copy)]
pub struct TransactionFlags(u32);

bitflag_items! {
    impl TransactionFlags: u32 {
        /// The sender does not wait for a reply.
        const TF_ONE_WAY = 0x01;
        /// The payload is the root object of a component.
        const TF_ROOT_OBJECT = 0x04;
        /// The payload is a 32-bit status code.
        const TF_STATUS_CODE = 0x08;
        /// A reply may carry file descriptors.
        const TF_ACCEPT_FDS = 0x10;
        /// The buffer is cleared once the transaction is complete.
        const TF_CLEAR_BUF = 0x20;
        /// The transaction replaces an outdated one that is pending.
        const TF_UPDATE_TXN = 0x40;
    }
}

impl Flags for TransactionFlags {
    type Bits = u32;

    ghost exact = { ⊤ };

    ghost table = { flag_table };

    ghost set_of = { bits_of };

    fn flags<'a>() -> &'a [Flag<TransactionFlags>] {
        TransactionFlags::FLAGS
    }

    fn bits(&self) -> u32 {
        self.0
    }

    fn from_bits_retain(bits: u32) -> TransactionFlags {
        TransactionFlags(bits)
    }
}

/// The bits of a flags word that no flag of `enum transaction_flags` has.
pub fn unknown_bits(flags: u32) -> u32
    ensures exact { result ≡ unknown_of flags }
    ensures rest { bit_and flags known_flags + result ≡ flags }
    ensures none { (result ≡ 0) ↔ (bit_and flags known_flags ≡ flags) }
{
    flags & !TransactionFlags::all().bits()
}
