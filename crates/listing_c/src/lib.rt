// The C caller's function, over the library of its name.
#![tactic(auto)]

ghost use Rattle.std.specs.Prelude.{◌≡◌, length};
ghost use Rattle.listing.specs.Listing.{listing_of, in_room, answer_of, left_of};

// The listing's length, or minus the refusal's number with nothing written.
#[unsafe(no_mangle)]
pub extern "C" fn pstore_list(file: &[u8], out: &mut [u8]) -> i64
    ensures value { result ≡ answer_of (in_room (length out.old) (listing_of file.now)) }
    ensures out_after { out.new ≡ left_of (in_room (length out.old) (listing_of file.now)) out.old }
{
    match listing::list(file, out) {
        // A listing is far shorter.
        Ok(n) => n as i64,
        Err(refusal) => -i64::from(refusal.number()),
    }
}
