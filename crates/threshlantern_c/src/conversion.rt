// The conversions of bytes to floats, for C.
ghost use Rattle.std.specs.Prelude.{◌≡◌};
ghost use Rattle.converter.specs.Convert.{samples, inverted, converted};

#[unsafe(no_mangle)]
pub extern "C" fn tl_convert(src: &[u8], dst: &mut [f32]) -> u32
    ensures { (result, dst.new) ≡ converted samples src.now dst.old }
{
    threshlantern::conversion::tl_convert(src, dst)
}

#[unsafe(no_mangle)]
pub extern "C" fn tl_convert_inverted(src: &[u8], dst: &mut [f32]) -> u32
    ensures { (result, dst.new) ≡ converted inverted src.now dst.old }
{
    threshlantern::conversion::tl_convert_inverted(src, dst)
}
