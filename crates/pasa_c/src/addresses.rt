// What an address answers by itself: its parent, its depth, its length and whether it is a host's; and the number of the interface.
ghost use Rattle.std.specs.Prelude.{◌≡◌};
ghost use Rattle.address.specs.Address.{parent, depth, bit_length};
ghost use Rattle.pasa.specs.Addresses.{host_answer, interface};

// The address less its last step; 0 for the root and for zero.
#[unsafe(no_mangle)]
pub extern "C" fn pasa_parent(address: u64) -> u64
    ensures { result ≡ parent address }
{
    pasa::addresses::pasa_parent(address)
}

// The number of steps from the root; 0 for zero.
#[unsafe(no_mangle)]
pub extern "C" fn pasa_depth(address: u64) -> u32
    ensures { result ≡ depth address }
{
    pasa::addresses::pasa_depth(address)
}

// The length in bits; 0 for zero.
#[unsafe(no_mangle)]
pub extern "C" fn pasa_bit_length(address: u64) -> u32
    ensures { result ≡ bit_length address }
{
    pasa::addresses::pasa_bit_length(address)
}

// 1 for a host's address, 0 for any other; neither the root nor zero is one.
#[unsafe(no_mangle)]
pub extern "C" fn pasa_is_host(address: u64) -> u8
    ensures { result ≡ host_answer address }
{
    pasa::addresses::pasa_is_host(address)
}

// The number of the interface, which its name carries too: include/pasa.h refers to the name, so that an object built with the header of
// another interface finds no function of that name and does not link.
#[unsafe(no_mangle)]
pub extern "C" fn pasa_interface_2() -> u32
    ensures { result ≡ interface }
{
    pasa::addresses::pasa_interface_2()
}
