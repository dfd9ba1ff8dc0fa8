// What an address answers by itself: its parent, its depth, its length and whether it is a host's; and the number of the interface.
ghost use Rattle.std.specs.Prelude.{◌≡◌};
ghost use Rattle.address.specs.Address.{parent, depth, bit_length};
ghost use Rattle.pasa.specs.Addresses.{host_answer, interface};

use address::Address;

// The address less its last step; 0 for the root and for zero.
#[unsafe(no_mangle)]
pub extern "C" fn pasa_parent(address: u64) -> u64
    ensures { result ≡ parent address }
{
    Address::of(address).parent().number
}

// The number of steps from the root; 0 for zero.
#[unsafe(no_mangle)]
pub extern "C" fn pasa_depth(address: u64) -> u32
    ensures { result ≡ depth address }
{
    Address::of(address).depth()
}

// The length in bits; 0 for zero.
#[unsafe(no_mangle)]
pub extern "C" fn pasa_bit_length(address: u64) -> u32
    ensures { result ≡ bit_length address }
{
    Address::of(address).bit_length()
}

// 1 for a host's address, 0 for any other; neither the root nor zero is one.
#[unsafe(no_mangle)]
#[tactic(auto, unfolding(crate::specs::Addresses::host_answer))]
pub extern "C" fn pasa_is_host(address: u64) -> u8
    ensures { result ≡ host_answer address }
{
    u8::from(Address::of(address).is_host())
}

// The number of the interface, which its name carries too: include/pasa.h refers to the name, so that an object built with the header of
// another interface finds no function of that name and does not link.
#[unsafe(no_mangle)]
pub extern "C" fn pasa_interface_2() -> u32
    ensures { result ≡ interface }
{
    2
}
