//! Scenes as numbers: their places in the list of all scenes, in which the last device's setting changes first.

/// How many scenes there are of these devices.
pub fn scene_count(settings: &[u8]) -> usize {
    let mut count = 1usize;
    for settings in settings {
        count = count.saturating_mul(usize::from(*settings));
    }
    count
}

/// The devices from one on.
pub fn devices_from(settings: &[u8], device: usize) -> &[u8] {
    match settings.split_at_checked(device) {
        Some((_, later)) => later,
        None => &[],
    }
}

/// How far apart the scenes are in which a device is at a setting and at the next.
fn stride(settings: &[u8], device: usize) -> usize {
    scene_count(devices_from(settings, device.saturating_add(1)))
}

/// The setting of a device in the scene at a place.
pub fn setting_at(settings: &[u8], place: usize, device: usize) -> usize {
    let count = settings.get(device).copied().unwrap_or(1);
    let passed = place.checked_div(stride(settings, device)).unwrap_or(0);
    passed.checked_rem(usize::from(count)).unwrap_or(0)
}

/// How much of a place is due to the setting of a device.
pub fn share(settings: &[u8], device: usize, setting: usize) -> usize {
    setting.saturating_mul(stride(settings, device))
}
