// A payload that a call is lent to change.
ghost use Rattle.std.specs.Prelude.{◌≤◌, length};

// A slice of which the length was checked, with a used length. What this says of them no function below has to ask again.
#[derive(Drop)]
pub struct Payload<'a> {
    pub bytes: &'a mut [u8],
    pub used: usize,
    pub ghost len_bound: { length bytes.now ≤ 65535 },
    pub ghost used_in_bounds: { used ≤ length bytes.now },
}
